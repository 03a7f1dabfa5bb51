ghost use Rattle.std.specs.Prelude.{◌≡◌, ◌++◌, OnOk, option_map, string_bytes};
ghost use Rattle.toml.specs.View.{table_view};
ghost use Rattle.rescue_config.specs.Fields.{address_of, function_of};
ghost use Rattle.rescue_config.specs.Version.{version_of};
ghost use Rattle.config_hints.specs.Wrong.{bad_value_words, missing_words, number_text, place_text, subject_of, target_text, unknown_key_words, wrong_of, wrong_words};

use crate::keys::first_other;
use crate::shown::{put_address, put_quoted};
use crate::tables::member;
use guest_words::MemoryWant;
use rescue_config::PointFault;
use toml::Table;

/// The name of the point's function, if it has one.
fn function_of(point: &Table) -> Option<&str>
    ensures { option_map (λ name. name.now) result ≡ function_of (table_view point.now) }
{
    member(point, "function")?.as_str()
}

/// The point's entry, if it is an address.
fn address_of(point: &Table) -> Option<u64>
    ensures { result ≡ address_of (table_view point.now) }
{
    let entry = member(point, "entry")?.as_integer()?;
    u64::try_from(entry).ok()
}

/// Appends what a point goes by.
fn put_target(text: &mut String, point: &Table) -> Result<(), MemoryWant>
    ensures ok { OnOk result
        (string_bytes text.new ≡ string_bytes text.old ++ target_text (table_view point.now)) }
{
    match function_of(point) {
        Some(name) => put_quoted(text, name),
        None => put_address(text, address_of(point).unwrap_or(0)),
    }
}

/// Appends the point that a rule is on.
fn put_place(text: &mut String, place: Option<u32>) -> Result<(), MemoryWant>
    ensures ok { OnOk result
        (string_bytes text.new ≡ string_bytes text.old ++ place_text place) }
{
    match place {
        None => Ok(()),
        Some(number) => {
            write!(text, "point {number}: ")?;
            Ok(())
        }
    }
}

/// Appends the first unknown key, or what a point goes by.
fn put_subject(
    text: &mut String,
    file: &Table,
    table: &Table,
    place: Option<u32>,
    fault: PointFault,
) -> Result<(), MemoryWant>
    ensures ok { OnOk result
        (string_bytes text.new ≡ string_bytes text.old
        ++ subject_of (version_of (table_view file.now)) (table_view table.now) place fault) }
{
    match fault {
        PointFault::UnknownKey => put_quoted(text, first_other(file, table, place).unwrap_or("")),
        PointFault::UnknownFunction
        | PointFault::Ambiguous { .. }
        | PointFault::Misaligned
        | PointFault::OutsideText
        | PointFault::Twice { .. } => put_target(text, table),
        _ => Ok(()),
    }
}

fn unknown_key_words(place: Option<u32>) -> &'static str
    ensures { result.now ≡ unknown_key_words place }
{
    match place {
        None => " is no key of a rescue file",
        Some(_) => " is no key of a point",
    }
}

fn bad_value_words(table: &Table, place: Option<u32>) -> &'static str
    ensures { result.now ≡ bad_value_words (table_view table.now) place }
{
    match (place, member(table, "function")) {
        (None, _) => "point is no array of tables",
        (Some(_), Some(_)) => "function is no text",
        (Some(_), None) => "entry is no integer from 0 on",
    }
}

fn missing_words(table: &Table) -> &'static str
    ensures { result.now ≡ missing_words (table_view table.now) }
{
    match (member(table, "function"), member(table, "entry")) {
        (None, None) => "function and entry are missing",
        _ => "returns is missing",
    }
}

fn wrong_words(table: &Table, place: Option<u32>, fault: PointFault) -> &'static str
    ensures { result.now ≡ wrong_words (table_view table.now) place fault }
{
    match fault {
        PointFault::Toml => "this is no TOML 1.0 document in UTF-8",
        PointFault::UnknownKey => unknown_key_words(place),
        PointFault::BadVersion => "version is none of the integers 1, 2 and 3",
        PointFault::BadValue => bad_value_words(table, place),
        PointFault::TooMany { .. } => "there are too many points: ",
        PointFault::Missing => missing_words(table),
        PointFault::Both => "function and entry are both there",
        PointFault::BadReturn => "returns is neither an integer nor the text 'void'",
        PointFault::BadCodes => "codes is no table from faults to what returns may be",
        PointFault::BadLimit => "limit is no integer from 1 to 1000000",
        PointFault::BadKind => "kind is none of the known ones",
        PointFault::Mixed { .. } => "it doesn't go together with point ",
        PointFault::UnknownFunction => " is no function symbol of the program",
        PointFault::Ambiguous { .. } => " is the name of several function symbols: ",
        PointFault::Misaligned => " isn't at a multiple of 4",
        PointFault::OutsideText => " lies outside the executable ranges",
        PointFault::Twice { .. } => " has the entry of point ",
        PointFault::LooseHere => "it is loose, and loose points aren't run yet",
    }
}

/// Appends the number that a fault brings with it.
fn put_number(text: &mut String, fault: PointFault) -> Result<(), MemoryWant>
    ensures ok { OnOk result
        (string_bytes text.new ≡ string_bytes text.old ++ number_text fault) }
{
    match fault {
        PointFault::TooMany { count } | PointFault::Ambiguous { count } => {
            write!(text, "{count}")?;
            Ok(())
        }
        PointFault::Mixed { first } | PointFault::Twice { first } => {
            write!(text, "{first}")?;
            Ok(())
        }
        _ => Ok(()),
    }
}

/// Appends what is wrong.
pub fn put_wrong(
    text: &mut String,
    file: &Table,
    table: &Table,
    place: Option<u32>,
    fault: PointFault,
) -> Result<(), MemoryWant>
    ensures ok { OnOk result
        (string_bytes text.new ≡ string_bytes text.old
        ++ wrong_of (version_of (table_view file.now)) (table_view table.now) place fault) }
{
    put_place(text, place)?;
    put_subject(text, file, table, place, fault)?;
    text.push_str(wrong_words(table, place, fault))?;
    put_number(text, fault)
}
