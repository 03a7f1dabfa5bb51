ghost use Rattle.std.specs.Prelude.{◌≡◌, IfOk};
ghost use Rattle.toml.specs.View.{table_view};
ghost use Rattle.rescue_config.specs.Document.{first_at_point};
ghost use Rattle.rescue_config.specs.PointRules.{target_rules, name_rules, named, entry_in};
ghost use Rattle.rescue_config.specs.ReadFields.{IsTarget, target_function, target_address};
ghost use Rattle.rescue_config.specs.Tells.{Tells};

use crate::member::member;
use crate::point_fault::PointFault;
use crate::points_fault::PointsFault;
use crate::values::as_address;
use elf_symbols::{Finder, Found};
use toml::Table;

/// What a point goes by.
#[derive(Clone, Copy, Debug)]
pub enum Target<'a> {
    /// The name of a function.
    Function(&'a str),
    /// The guest address of a function's first instruction.
    Entry(u64),
}

/// The target that the table of the point with this number says.
pub fn read_target(table: &Table, number: u32) -> Result<Target<'_>, PointsFault>
    ensures rules { Tells result (first_at_point (target_rules number (table_view table.now))) }
    ensures target { IfOk result (IsTarget (table_view table.now)) }
{
    match (member(table, "function"), member(table, "entry")) {
        (None, None) => Err(PointsFault::at_point(PointFault::Missing, number)),
        (Some(_), Some(_)) => Err(PointsFault::at_point(PointFault::Both, number)),
        (Some(function), None) => match function.as_str() {
            Some(name) => Ok(Target::Function(name)),
            None => Err(PointsFault::at_point(PointFault::BadValue, number)),
        },
        (None, Some(entry)) => match as_address(entry) {
            Some(address) => Ok(Target::Entry(address)),
            None => Err(PointsFault::at_point(PointFault::BadValue, number)),
        },
    }
}

impl Target<'_> {
    /// The entry of the point with this number, which goes by this target.
    pub fn entry(&self, symbols: &Finder, number: u32) -> Result<u64, PointsFault>
        ensures rules { Tells result
            (first_at_point (name_rules number (named symbols.now (target_function self.now)))) }
        ensures entry { IfOk result (λ entry.
            entry ≡ entry_in (named symbols.now (target_function self.now))
            (target_address self.now)) }
    {
        let fault = match self {
            Target::Entry(address) => return Ok(*address),
            Target::Function(name) => match symbols.find(name) {
                Found::One(entry) => return Ok(entry),
                Found::Absent => PointFault::UnknownFunction,
                Found::Several(count) => PointFault::Ambiguous { count },
            },
        };
        Err(PointsFault::at_point(fault, number))
    }
}
