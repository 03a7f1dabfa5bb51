ghost use Rattle.std.specs.Prelude.{◌≡◌, option_map, string_bytes};
ghost use Rattle.std.specs.BTreeMap.{keys};
ghost use Rattle.std.specs.List.{list_all};
ghost use Rattle.toml.specs.Data.{get_member};
ghost use Rattle.toml.specs.View.{view, table_view};
ghost use Rattle.rescue_config.specs.Fields.{is_file_key, is_first_key, is_later_key, is_point_key, is_fault_key, has_only};

use crate::version::Version;
use guest_words::FaultName;
use toml::{Table, Value};

/// The faults, in their order.
const FAULTS: [FaultName; 8] = [
    FaultName::FetchRights,
    FaultName::FetchMisaligned,
    FaultName::Illegal,
    FaultName::LoadRights,
    FaultName::StoreRights,
    FaultName::AtomicMisaligned,
    FaultName::Breakpoint,
    FaultName::BlockedInPoint,
];

/// The value of a key, if the table has it.
pub fn member<'a>(table: &'a Table, key: &str) -> Option<&'a Value>
    ensures { option_map (λ v. view v.now) result ≡ get_member key.now (table_view table.now) }
{
    table.get(key)
}

fn is_file_key(key: &str) -> bool
    ensures { result ≡ is_file_key key.now }
{
    key == "version" || key == "point"
}

fn is_first_key(key: &str) -> bool
    ensures { result ≡ is_first_key key.now }
{
    key == "function" || key == "entry" || key == "returns" || key == "kind"
}

fn is_later_key(key: &str) -> bool
    ensures { result ≡ is_later_key key.now }
{
    key == "codes" || key == "limit"
}

fn is_point_key(version: Version, key: &str) -> bool
    ensures { result ≡ is_point_key version key.now }
{
    is_first_key(key) || version.has_codes() && is_later_key(key)
}

fn is_fault_key(key: &str) -> bool
    ensures { result ≡ is_fault_key key.now }
{
    FAULTS.iter().any(|fault| key == fault.name())
}

/// Whether each key is one of the whole file's.
fn are_file_keys(table: &Table) -> bool
    ensures { result ≡ list_all (λ key. is_file_key (string_bytes key)) (keys table.now) }
{
    table.keys().all(|key| is_file_key(key.as_str()))
}

/// Whether each key is one of a point's.
fn are_point_keys(version: Version, table: &Table) -> bool
    ensures { result
        ≡ list_all (λ key. is_point_key version (string_bytes key)) (keys table.now) }
{
    table.keys().all(|key| is_point_key(version, key.as_str()))
}

/// Whether each key is the name of a fault.
fn are_fault_keys(table: &Table) -> bool
    ensures { result ≡ list_all (λ key. is_fault_key (string_bytes key)) (keys table.now) }
{
    table.keys().all(|key| is_fault_key(key.as_str()))
}

/// Whether each key of the table is one of the whole file's.
pub fn has_only_file_keys(table: &Table) -> bool
    ensures { result ≡ has_only is_file_key (table_view table.now) }
{
    are_file_keys(table)
}

/// Whether each key of the table is one of a point's.
pub fn has_only_point_keys(version: Version, table: &Table) -> bool
    ensures { result ≡ has_only (is_point_key version) (table_view table.now) }
{
    are_point_keys(version, table)
}

/// Whether each key of the table is the name of a fault.
pub fn has_only_fault_keys(table: &Table) -> bool
    ensures { result ≡ has_only is_fault_key (table_view table.now) }
{
    are_fault_keys(table)
}
