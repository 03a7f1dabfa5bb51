ghost use Rattle.std.specs.Prelude.{◌≡◌, ◌⊎◌};
ghost use Rattle.guest_words.specs.Effects.{class_of, amo_of};
ghost use Rattle.guest_words.specs.Word;

use crate::readings::{low_32, signed, signed_32, word_of};
use guest_words::{Class, Op, Width};

/// What an atomic instruction stores, where memory has `old` and rs2 is `operand`. Of a row on
/// words of 32 bits it is below 2^32, whatever the high bits are.
#[inline(always)]
pub fn amo(op: Op, old: u64, operand: u64) -> u64
    requires { (class_of op ≡ Class.Atomic Width.Four) ⊎ (class_of op ≡ Class.Atomic Width.Eight) }
    ensures value { result ≡ amo_of op old operand }
{
    match op {
        Op::AmoswapW => u64::from(low_32(operand)),
        Op::AmoaddW => u64::from(low_32(old).wrapping_add(low_32(operand))),
        Op::AmoxorW => u64::from(low_32(old) ^ low_32(operand)),
        Op::AmoandW => u64::from(low_32(old) & low_32(operand)),
        Op::AmoorW => u64::from(low_32(old) | low_32(operand)),
        Op::AmominW => unsigned_32(signed_32(old).min(signed_32(operand))),
        Op::AmomaxW => unsigned_32(signed_32(old).max(signed_32(operand))),
        Op::AmominuW => u64::from(low_32(old).min(low_32(operand))),
        Op::AmomaxuW => u64::from(low_32(old).max(low_32(operand))),
        Op::AmoswapD => operand,
        Op::AmoaddD => old.wrapping_add(operand),
        Op::AmoxorD => old ^ operand,
        Op::AmoandD => old & operand,
        Op::AmoorD => old | operand,
        Op::AmominD => word_of(signed(old).min(signed(operand))),
        Op::AmomaxD => word_of(signed(old).max(signed(operand))),
        Op::AmominuD => old.min(operand),
        Op::AmomaxuD => old.max(operand),
        _ => unreachable!(),
    }
}

/// The low 32 bits of a number in two's complement.
fn unsigned_32(value: i32) -> u64
    ensures value { result ≡ Word.low_32 (Word.word_of value) }
{
    u64::from(low_32(word_of(i64::from(value))))
}
