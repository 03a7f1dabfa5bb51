ghost use Rattle.std.specs.Prelude.{◌≡◌, ◌≤◌, ◌<◌, ◌==◌, length, position, IfSome, IfOk};
ghost use Rattle.std.specs.List.{list_any};
ghost use Rattle.toml.specs.View.{table_view};
ghost use Rattle.rescue_config.specs.Document.{first_at_point};
ghost use Rattle.rescue_config.specs.PointRules.{are_mixed, is_within, mixed_rules, entry_rules, point_rules, point_of};
ghost use Rattle.rescue_config.specs.Tells.{Tells};

use crate::fields::read_fields;
use crate::point_fault::PointFault;
use crate::points_fault::PointsFault;
use crate::version::Version;
use elf_symbols::Finder;
use guest_words::{Kind, Point, Span};
use toml::Table;

/// Whether the address is in the range.
fn is_within(span: &Span, address: u64) -> bool
    ensures { result ≡ is_within span.now address }
{
    span.from <= address && address - span.from < span.size
}

/// Whether the address is in one of the ranges.
fn is_in_text(text: &[Span], address: u64) -> bool
    ensures { result ≡ list_any (λ span. is_within span address) text.now }
{
    text.iter().any(|span| is_within(span, address))
}

/// The number of the first point with this entry, if there is one.
fn first_at(points: &[Point], entry: u64) -> Option<usize>
    ensures number { result ≡ position (λ point. point.entry == entry) points.now }
    ensures within { IfSome result (λ number. number < length points.now) }
{
    points.iter().position(|point| point.entry == entry)
}

/// Whether one of the kinds is loose, and the other blocking.
fn are_mixed(kind: Kind, other: Kind) -> bool
    ensures { result ≡ are_mixed kind other }
{
    matches!(
        (kind, other),
        (Kind::Blocking, Kind::Loose) | (Kind::Loose, Kind::Blocking)
    )
}

/// The number of the first point that doesn't go together with this kind, if there is one.
fn first_mixed(points: &[Point], kind: Kind) -> Option<usize>
    ensures number { result ≡ position (λ point. are_mixed kind point.kind) points.now }
    ensures within { IfSome result (λ number. number < length points.now) }
{
    points.iter().position(|point| are_mixed(kind, point.kind))
}

/// Tries the rule on the kinds of the point after these.
fn check_kind(kind: Kind, earlier: &[Point]) -> Result<(), PointsFault>
    requires { length earlier.now ≤ 256 }
    ensures rules { Tells result
        (first_at_point (mixed_rules (length earlier.now) earlier.now kind)) }
{
    let number = earlier.len() as u32;
    match first_mixed(earlier, kind) {
        Some(first) => {
            let first = first as u32;
            Err(PointsFault::at_point(PointFault::Mixed { first }, number))
        }
        None => Ok(()),
    }
}

/// Tries the rules on the entry of the point after these.
fn check_entry(entry: u64, text: &[Span], earlier: &[Point]) -> Result<(), PointsFault>
    requires { length earlier.now ≤ 256 }
    ensures rules { Tells result
        (first_at_point (entry_rules (length earlier.now) text.now earlier.now entry)) }
{
    let number = earlier.len() as u32;
    if entry % 4 != 0 {
        return Err(PointsFault::at_point(PointFault::Misaligned, number));
    }
    if !is_in_text(text, entry) {
        return Err(PointsFault::at_point(PointFault::OutsideText, number));
    }
    match first_at(earlier, entry) {
        Some(first) => {
            let first = first as u32;
            Err(PointsFault::at_point(PointFault::Twice { first }, number))
        }
        None => Ok(()),
    }
}

/// The point of the table after these points.
pub fn read_point(
    version: Version,
    table: &Table,
    symbols: &Finder,
    text: &[Span],
    earlier: &[Point],
) -> Result<Point, PointsFault>
    requires { length earlier.now ≤ 256 }
    ensures rules { Tells result (first_at_point
        (point_rules version symbols.now text.now earlier.now (table_view table.now))) }
    ensures point { IfOk result (λ point.
        point ≡ point_of version symbols.now (table_view table.now)) }
{
    let number = earlier.len() as u32;
    let fields = read_fields(version, table, number)?;
    check_kind(fields.kind, earlier)?;
    let entry = fields.target.entry(symbols, number)?;
    check_entry(entry, text, earlier)?;
    Ok(Point {
        entry,
        codes: fields.rescues.codes,
        kind: fields.kind,
        left: fields.rescues.limit,
    })
}
