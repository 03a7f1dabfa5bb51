//! The calls on devices so far. They stand in proofs alone, and take no memory.
ghost use Rattle.std.specs.Prelude.{◌≡◌, List, [], ◌∷◌, ◌++◌};
ghost use Rattle.std.specs.Borrow.{ftrue};
ghost use Rattle.std.specs.Coded.{coded_list};
ghost use Rattle.guest_words.specs.declared.record.Record.{Record};
ghost use Rattle.guest_words.specs.contracts.record.Record as record_code;

use guest_words::Record;
use std::marker::Model;

/// All calls on devices so far, in order.
#[derive(Drop)]
pub(crate) struct RecordLog {
    ghost records: { List Record } by { coded_list record_code.the_row.coded },
}

impl Model for RecordLog {
    ghost also_owns = { λ _. ftrue };
}

// It owns nothing.
unsafe impl Send for RecordLog {}

impl RecordLog {
    pub(crate) fn new() -> RecordLog
        ensures none { result.records ≡ [] }
    {
        RecordLog {}
    }

    #[inline(always)]
    pub(crate) fn same(&self) -> RecordLog
        ensures value { result.records ≡ self.now.records }
    {
        RecordLog {}
    }

    #[inline(always)]
    pub(crate) fn then(&self, _call: &Record) -> RecordLog
        ensures more { result.records ≡ self.now.records ++ _call.now ∷ [] }
    {
        RecordLog {}
    }
}
