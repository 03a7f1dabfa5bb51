ghost use Rattle.std.specs.Prelude.{◌≡◌, IfOk};
ghost use Rattle.toml.specs.View.{table_view};
ghost use Rattle.rescue_config.specs.Document.{first_at_point};
ghost use Rattle.rescue_config.specs.Fields.{ret_of, codes_of, limit_of};
ghost use Rattle.rescue_config.specs.PointRules.{ret_rules, codes_rules, limit_rules, rescue_rules};
ghost use Rattle.rescue_config.specs.ReadFields.{AreRescues};
ghost use Rattle.rescue_config.specs.Tells.{Tells};

use crate::codes::{as_codes, codes_by};
use crate::member::member;
use crate::point_fault::PointFault;
use crate::points_fault::PointsFault;
use crate::values::{as_limit, as_ret};
use guest_words::Ret;
use toml::Table;

/// What a point says of rescues.
#[derive(Clone, Copy, Debug)]
pub struct Rescues {
    /// What a rescued call returns for each fault, in the order of the faults.
    pub codes: [Ret; 8],
    /// How many there may be; None: any number.
    pub limit: Option<u32>,
}

/// What a rescued call returns, as the table of the point with this number says.
fn read_ret(table: &Table, number: u32) -> Result<Ret, PointsFault>
    ensures rules { Tells result (first_at_point (ret_rules number (table_view table.now))) }
    ensures ret { IfOk result (λ ret. ret ≡ ret_of (table_view table.now)) }
{
    match member(table, "returns") {
        None => Err(PointsFault::at_point(PointFault::Missing, number)),
        Some(value) => as_ret(value).ok_or(PointsFault::at_point(PointFault::BadReturn, number)),
    }
}

/// What it returns for each fault, where `ret` is what it returns for those that aren't named.
fn read_codes(table: &Table, ret: Ret, number: u32) -> Result<[Ret; 8], PointsFault>
    requires { ret ≡ ret_of (table_view table.now) }
    ensures rules { Tells result (first_at_point (codes_rules number (table_view table.now))) }
    ensures codes { IfOk result (λ codes. codes ≡ codes_of (table_view table.now)) }
{
    match member(table, "codes") {
        None => Ok([ret; 8]),
        Some(value) => match as_codes(value) {
            None => Err(PointsFault::at_point(PointFault::BadCodes, number)),
            Some(codes) => Ok(codes_by(codes, ret)),
        },
    }
}

/// The greatest number of rescues, as the table of the point with this number says; None: any.
fn read_limit(table: &Table, number: u32) -> Result<Option<u32>, PointsFault>
    ensures rules { Tells result (first_at_point (limit_rules number (table_view table.now))) }
    ensures limit { IfOk result (λ limit. limit ≡ limit_of (table_view table.now)) }
{
    match member(table, "limit") {
        None => Ok(None),
        Some(value) => match as_limit(value) {
            None => Err(PointsFault::at_point(PointFault::BadLimit, number)),
            Some(limit) => Ok(Some(limit)),
        },
    }
}

/// What the table of the point with this number says of rescues.
pub fn read_rescues(table: &Table, number: u32) -> Result<Rescues, PointsFault>
    ensures rules { Tells result (first_at_point (rescue_rules number (table_view table.now))) }
    ensures rescues { IfOk result (AreRescues (table_view table.now)) }
{
    let ret = read_ret(table, number)?;
    let codes = read_codes(table, ret, number)?;
    let limit = read_limit(table, number)?;
    Ok(Rescues { codes, limit })
}
