//! What a shelf was asked for. It stands in proofs alone, and takes no memory.
ghost use Rattle.std.specs.Prelude.{◌≡◌, List, [], ◌∷◌, ◌++◌};
ghost use Rattle.std.specs.Borrow.{ftrue};
ghost use Rattle.edge_ports.specs.Asked.{Asked, asked_code};

use crate::shelf::ShelfFault;
use guest_words::Bytes;
use std::marker::Model;

/// All that a shelf was asked for so far, in order, with its answers.
#[derive(Drop)]
pub(crate) struct ShelfLog {
    ghost asked: { List Asked } by { asked_code },
}

impl Model for ShelfLog {
    ghost also_owns = { λ _. ftrue };
}

/// One call of a shelf, with its answer.
#[derive(Clone, Copy, Drop)]
pub(crate) enum ShelfCall<'a> {
    Load {
        name: &'a str,
        answer: &'a Result<Bytes, ShelfFault>,
    },
    Save {
        name: &'a str,
        bytes: &'a Bytes,
        answer: Result<(), ShelfFault>,
    },
}

impl ShelfLog {
    ghost use Rattle.edge_ports.specs.AskedBy.{asked_by};

    pub(crate) fn new() -> ShelfLog
        ensures none { result.asked ≡ [] }
    {
        ShelfLog {}
    }

    #[inline(always)]
    pub(crate) fn then(&self, _call: &ShelfCall<'_>) -> ShelfLog
        ensures more { result.asked ≡ self.now.asked ++ asked_by _call.now ∷ [] }
    {
        ShelfLog {}
    }
}
