ghost use Rattle.std.specs.Prelude.{◌≡◌, find, not, option_map, string_bytes};
ghost use Rattle.std.specs.BTreeMap.{keys};
ghost use Rattle.std.specs.Option.{option_copied};
ghost use Rattle.toml.specs.View.{table_view};
ghost use Rattle.rescue_config.specs.Fields.{is_file_key, is_point_key};
ghost use Rattle.rescue_config.specs.Version.{has_codes, version_of};
ghost use Rattle.config_hints.specs.Keys.{first_other, is_key_at};

use crate::tables::member;
use toml::Table;

/// Whether the version of the file has the keys that came with version 2.
fn has_codes(file: &Table) -> bool
    ensures { result ≡ has_codes (version_of (table_view file.now)) }
{
    match member(file, "version") {
        None => false,
        Some(value) => matches!(value.as_integer(), Some(2 | 3)),
    }
}

fn is_file_key(key: &str) -> bool
    ensures { result ≡ is_file_key key.now }
{
    key == "version" || key == "point"
}

/// Whether a point of the file may have the key.
fn is_point_key(file: &Table, key: &str) -> bool
    ensures { result ≡ is_point_key (version_of (table_view file.now)) key.now }
{
    match key {
        "function" | "entry" | "returns" | "kind" => true,
        "codes" | "limit" => has_codes(file),
        _ => false,
    }
}

/// Whether the key may stand at the place: in the whole file, or else in a point.
fn is_key_at(file: &Table, place: Option<u32>, key: &str) -> bool
    ensures { result ≡ is_key_at (version_of (table_view file.now)) place key.now }
{
    match place {
        None => is_file_key(key),
        Some(_) => is_point_key(file, key),
    }
}

fn first_unknown<'a>(file: &Table, table: &'a Table, place: Option<u32>) -> Option<&'a String>
    ensures { option_copied result ≡ find
        (λ key. not (is_key_at (version_of (table_view file.now)) place (string_bytes key)))
        (keys table.now) }
{
    table
        .keys()
        .find(|key| !is_key_at(file, place, key.as_str()))
}

/// The first key of the table that may not stand at its place.
pub fn first_other<'a>(file: &Table, table: &'a Table, place: Option<u32>) -> Option<&'a str>
    ensures { option_map (λ key. key.now) result ≡ first_other
        (is_key_at (version_of (table_view file.now)) place) (table_view table.now) }
{
    match first_unknown(file, table, place) {
        None => None,
        Some(key) => Some(key.as_str()),
    }
}
