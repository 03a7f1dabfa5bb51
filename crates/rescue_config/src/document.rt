ghost use Rattle.std.specs.Prelude.{◌≡◌, ◌≤◌, true, length, IfOk};
ghost use Rattle.toml.specs.View.{items_view, table_view};
ghost use Rattle.rescue_config.specs.Document.{document_of, first_at_file, file_rules, point_items};
ghost use Rattle.rescue_config.specs.Fields.{are_tables};
ghost use Rattle.rescue_config.specs.Version.{named_version, version_of};
ghost use Rattle.rescue_config.specs.Tells.{Tells, unparsed};

use crate::member::{has_only_file_keys, member};
use crate::point_fault::PointFault;
use crate::points_fault::PointsFault;
use crate::values::{as_version, is_table_list};
use crate::version::Version;
use guest_words::limits::POINTS;
use std::alloc::Global;
use toml::{Table, Value};

/// The table of the whole file.
pub fn parse(alloc: Global, bytes: &[u8]) -> Result<Table, PointsFault>
    ensures rules { Tells result (unparsed (document_of bytes.now)) }
    ensures file { IfOk result (λ file. document_of bytes.now ≡ Some (table_view file)) }
{
    let Ok(text) = str::from_utf8(bytes) else {
        return Err(PointsFault::of_file(PointFault::Toml));
    };
    match toml::table_from_str(alloc, text) {
        Ok(file) => Ok(file),
        Err(error) if error.is_memory() => Err(PointsFault::Memory),
        Err(_) => Err(PointsFault::of_file(PointFault::Toml)),
    }
}

/// The items of `point`, none where it is absent.
fn point_values(file: &Table) -> &[Value]
    ensures { items_view result.now ≡ point_items (table_view file.now) }
{
    match member(file, "point") {
        None => &[],
        Some(value) => match value.as_array() {
            None => &[],
            Some(values) => values.as_slice(),
        },
    }
}

/// The version that the file says, if it is one: the first where it says none.
fn version_in(file: &Table) -> Option<Version>
    ensures { result ≡ named_version (table_view file.now) }
{
    match member(file, "version") {
        None => Some(Version::One),
        Some(value) => as_version(value),
    }
}

/// The tables of a file's points, and the version that they are written in.
#[derive(Clone, Copy, Debug)]
pub struct PointTables<'a> {
    pub version: Version,
    pub values: &'a [Value],
}

/// Tries the rules on the whole file, and answers what it says of its points.
pub fn check_file(file: &Table) -> Result<PointTables<'_>, PointsFault>
    ensures rules { Tells result (first_at_file (file_rules (table_view file.now))) }
    ensures version { IfOk result (λ points. points.version ≡ version_of (table_view file.now)) }
    ensures values { IfOk result (λ points.
        items_view points.values.now ≡ point_items (table_view file.now)) }
    ensures tables { IfOk result (λ points. are_tables (items_view points.values.now) ≡ true) }
    ensures few { IfOk result (λ points. length points.values.now ≤ 256) }
{
    if !has_only_file_keys(file) {
        return Err(PointsFault::of_file(PointFault::UnknownKey));
    }
    let Some(version) = version_in(file) else {
        return Err(PointsFault::of_file(PointFault::BadVersion));
    };
    if member(file, "point").is_some_and(|value| !is_table_list(value)) {
        return Err(PointsFault::of_file(PointFault::BadValue));
    }
    let values = point_values(file);
    if values.len() > POINTS {
        let count = values.len() as u64;
        return Err(PointsFault::of_file(PointFault::TooMany { count }));
    }
    Ok(PointTables { version, values })
}
