ghost use Rattle.std.specs.Prelude.{◌≡◌, IfOk};
ghost use Rattle.toml.specs.View.{table_view};
ghost use Rattle.rescue_config.specs.Document.{first_at_point};
ghost use Rattle.rescue_config.specs.Fields.{kind_of};
ghost use Rattle.rescue_config.specs.PointRules.{kind_rules, field_rules};
ghost use Rattle.rescue_config.specs.ReadFields.{AreFields};
ghost use Rattle.rescue_config.specs.Tells.{Tells};

use crate::member::{has_only_point_keys, member};
use crate::point_fault::PointFault;
use crate::points_fault::PointsFault;
use crate::rescues::{Rescues, read_rescues};
use crate::target::{Target, read_target};
use crate::values::as_kind;
use crate::version::Version;
use guest_words::Kind;
use toml::Table;

/// The fields of a point.
#[derive(Clone, Copy, Debug)]
pub struct Fields<'a> {
    pub target: Target<'a>,
    pub rescues: Rescues,
    pub kind: Kind,
}

/// How the point takes part, as the table of the point with this number says.
fn read_kind(version: Version, table: &Table, number: u32) -> Result<Kind, PointsFault>
    ensures rules { Tells result
        (first_at_point (kind_rules version number (table_view table.now))) }
    ensures kind { IfOk result (λ kind. kind ≡ kind_of version (table_view table.now)) }
{
    match member(table, "kind") {
        None => Ok(Kind::Blocking),
        Some(value) => {
            as_kind(version, value).ok_or(PointsFault::at_point(PointFault::BadKind, number))
        }
    }
}

/// The fields of the table of the point with this number.
pub fn read_fields(version: Version, table: &Table, number: u32) -> Result<Fields<'_>, PointsFault>
    ensures rules { Tells result
        (first_at_point (field_rules version number (table_view table.now))) }
    ensures fields { IfOk result (AreFields version (table_view table.now)) }
{
    if !has_only_point_keys(version, table) {
        return Err(PointsFault::at_point(PointFault::UnknownKey, number));
    }
    let target = read_target(table, number)?;
    let rescues = read_rescues(table, number)?;
    let kind = read_kind(version, table, number)?;
    Ok(Fields {
        target,
        rescues,
        kind,
    })
}
