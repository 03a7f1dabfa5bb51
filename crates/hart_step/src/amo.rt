ghost use Rattle.std.specs.Prelude.{◌≡◌, ◌≤◌};
ghost use Rattle.guest_words.specs.Effects.{amo_of, class_of};
ghost use Rattle.guest_words.specs.Widths.{bytes_in};
ghost use Rattle.guest_words.specs.declared.class.Class.TheVariants.{Atomic};

use guest_atomics::amo;
use guest_pages::Change;
use guest_words::{Op, Width};

/// What an atomic instruction stores, where memory has a number.
#[derive(Drop)]
pub struct Amo {
    pub op: Op,
    pub width: Width,
    /// The value of rs2.
    pub operand: u64,
    ghost atomic: { class_of op ≡ Atomic width },
    ghost wide: { 4 ≤ bytes_in width },
}

impl Change for Amo {
    ghost changed = { λ it old. amo_of it.op old it.operand };

    #[inline(always)]
    fn changed(&self, old: u64) -> u64 {
        amo(self.op, old, self.operand)
    }
}
