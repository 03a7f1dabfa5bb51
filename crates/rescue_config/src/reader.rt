ghost use Rattle.std.specs.Prelude.{◌≡◌, ◌≤◌, ◌<◌, ℕ, true, [], ◌∷◌, ◌++◌, length, Option, Ok, Err, IfOk, OnOk, IsOk, IsSome, IsErrOf, ◌⊎◌};
ghost use Rattle.guest_words.specs.Points.{IsPointList};
ghost use Rattle.toml.specs.Data.{as_table};
ghost use Rattle.toml.specs.View.{view, items_view, table_view};
ghost use Rattle.rescue_config.specs.declared.point_fault.PointFault.{PointFault};
ghost use Rattle.rescue_config.specs.Document.{first_at_point, points_rules, points_in, members_in, points_of};
ghost use Rattle.rescue_config.specs.Fields.{are_tables};
ghost use Rattle.rescue_config.specs.PointRules.{point_rules, point_of};
ghost use Rattle.rescue_config.specs.Tells.{Tells};

use crate::document::{check_file, parse};
use crate::member::member;
use crate::point::read_point;
use crate::points_fault::PointsFault;
use crate::version::Version;
use elf_symbols::{Finder, Symbols};
use guest_words::{Point, Points, Span};
use std::alloc::{AllocError, Global};
use toml::{Table, Value};

/// The table that the value is.
fn table_of(value: &Value) -> &Table
    requires { IsSome (as_table (view value.now)) }
    ensures { table_view result.now ≡ members_in (view value.now) }
{
    value.as_table().unwrap()
}

/// Adds the point of the next table.
fn add_point(
    points: &mut Vec<Point>,
    version: Version,
    value: &Value,
    symbols: &Finder,
    text: &[Span],
) -> Result<(), PointsFault>
    requires table { IsSome (as_table (view value.now)) }
    requires room { length points.old.items < 256 }
    requires list { IsPointList points.old.items }
    ensures rules { Tells result (first_at_point
        (point_rules version symbols.now text.now points.old.items (members_in (view value.now)))) }
    ensures ok { OnOk result (points.new.items
        ≡ points.old.items ++ point_of version symbols.now (members_in (view value.now)) ∷ []) }
    ensures list { OnOk result (IsPointList points.new.items) }
{
    let point = read_point(version, table_of(value), symbols, text, points.as_slice())?;
    match points.push(point) {
        Ok(()) => Ok(()),
        Err(_) => Err(PointsFault::Memory),
    }
}

/// The points of the tables, in order.
fn read_tables(
    alloc: Global,
    version: Version,
    values: &[Value],
    symbols: &Finder,
    text: &[Span],
) -> Result<Points, PointsFault>
    requires tables { are_tables (items_view values.now) ≡ true }
    requires few { length values.now ≤ 256 }
    ensures rules { Tells result (first_at_point
        (points_rules version symbols.now text.now [] (items_view values.now))) }
    ensures list { IfOk result (λ points.
        points ≡ points_in version symbols.now (items_view values.now)) }
{
    let mut points = Vec::with_capacity(alloc, values.len())?;
    for value in values {
        add_point(&mut points, version, value, symbols, text)?;
    }
    Ok(Points::of(points))
}

/// The names of functions in the tables.
fn names_in<'a>(alloc: Global, values: &'a [Value]) -> Result<Vec<&'a str>, AllocError> {
    let mut names = Vec::new(alloc);
    for value in values {
        let function = value.as_table().and_then(|table| member(table, "function"));
        if let Some(name) = function.and_then(|function| function.as_str()) {
            names.push(name)?;
        }
    }
    Ok(names)
}

/// The symbols, walked over once for the names in the tables.
fn finder<'a, 'n>(
    alloc: Global,
    symbols: &Symbols<'a>,
    values: &'n [Value],
) -> Result<Finder<'a, 'n>, AllocError>
    ensures { IfOk result (λ finder. finder ≡ symbols.now) }
{
    let names = names_in(alloc, values)?;
    Finder::of(alloc, symbols, names.as_slice())
}

/// The points of a rescue file, in its order, or the first rule that it breaks, with the number of
/// the point that breaks it, counted from 0.
///
/// A rescue file is a TOML document in UTF-8. Its key `version` is 1, 2 or 3, and 1 where it is
/// absent. Its tables `point` have the keys
/// - `function`, the name of one of the symbols, or `entry`, a guest address;
/// - `returns`, an integer modulo 2 ^ 64 or the text `void`;
/// - from version 2 on `codes`, a table with what is returned for the faults that it names instead
///   of `returns`, and `limit`, an integer from 1 to 1,000,000, and any number where it is absent;
/// - `kind`, `blocking`, `off` or, in version 3, `loose`, and blocking where it is absent.
///
/// `text` are the ranges of the executable loads. The rules are those of
/// [`PointFault`](crate::PointFault): first those on the whole file, then those on each point in
/// order. Points that are off are checked as all others.
pub fn read_points(
    alloc: Global,
    bytes: &[u8],
    symbols: &Symbols,
    text: &[Span],
) -> Result<Points, PointsFault>
    ensures ok { IfOk result (λ points. points_of bytes.now symbols.now text.now ≡ Ok points) }

    // A rule is named only where it is the first one that is broken, with its place.
    ensures cause { (fault : PointFault) (place : Option ℕ)
        → IsErrOf result (PointsFault.Points fault place)
        → points_of bytes.now symbols.now text.now ≡ Err (fault, place) }

    // And then it is named, and where none is broken the points are answered; but memory may be
    // wanting.
    ensures refuses { (fault : PointFault) (place : Option ℕ)
        → points_of bytes.now symbols.now text.now ≡ Err (fault, place)
        → IsErrOf result (PointsFault.Points fault place) ⊎ IsErrOf result PointsFault.Memory }
    ensures accepts { IsOk (points_of bytes.now symbols.now text.now)
        → IsOk result ⊎ IsErrOf result PointsFault.Memory }
{
    let file = parse(alloc, bytes)?;
    let tables = check_file(&file)?;
    let symbols = finder(alloc, symbols, tables.values)?;
    read_tables(alloc, tables.version, tables.values, &symbols, text)
}
