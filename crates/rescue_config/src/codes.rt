ghost use Rattle.std.specs.Prelude.{◌≡◌, option_map};
ghost use Rattle.std.specs.BTreeMap.{values};
ghost use Rattle.std.specs.List.{list_all};
ghost use Rattle.toml.specs.View.{view, table_view};
ghost use Rattle.std.specs.Prelude.{is_some};
ghost use Rattle.rescue_config.specs.Fields.{are_rets, code_for, codes_in, codes_by, ret_in};

use crate::member::{has_only_fault_keys, member};
use crate::values::as_ret;
use guest_words::{FaultName, Ret};
use toml::{Table, Value};

/// Whether each value is one that `returns` may have.
fn are_values_rets(table: &Table) -> bool
    ensures { result ≡ list_all (λ value. is_some (ret_in (view value))) (values table.now) }
{
    table.values().all(|value| as_ret(value).is_some())
}

fn are_rets(table: &Table) -> bool
    ensures { result ≡ are_rets (table_view table.now) }
{
    are_values_rets(table)
}

/// The table of codes by the names of faults, if the value is one.
pub fn as_codes(value: &Value) -> Option<&Table>
    ensures { option_map (λ t. table_view t.now) result ≡ codes_in (view value.now) }
{
    let table = value.as_table()?;
    if has_only_fault_keys(table) && are_rets(table) {
        Some(table)
    } else {
        None
    }
}

/// What a rescued call returns for a fault: the code of its name, or else `ret`.
fn code_for(codes: &Table, ret: Ret, fault: FaultName) -> Ret
    ensures { result ≡ code_for (table_view codes.now) ret fault }
{
    match member(codes, fault.name()) {
        None => ret,
        Some(value) => as_ret(value).unwrap_or(ret),
    }
}

/// The codes for all faults, in their order.
pub fn codes_by(codes: &Table, ret: Ret) -> [Ret; 8]
    ensures { result ≡ codes_by (table_view codes.now) ret }
{
    [
        code_for(codes, ret, FaultName::FetchRights),
        code_for(codes, ret, FaultName::FetchMisaligned),
        code_for(codes, ret, FaultName::Illegal),
        code_for(codes, ret, FaultName::LoadRights),
        code_for(codes, ret, FaultName::StoreRights),
        code_for(codes, ret, FaultName::AtomicMisaligned),
        code_for(codes, ret, FaultName::Breakpoint),
        code_for(codes, ret, FaultName::BlockedInPoint),
    ]
}
