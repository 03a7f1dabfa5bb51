ghost use Rattle.guest_words.specs.Effects.{class_of, is_taken, jump_place};
ghost use Rattle.std.specs.Prelude.{◌≡◌, ◌⊎◌};

use guest_words::{Class, Op};
use rv_word::{signed, sum};

/// Whether a branch's condition holds, where rs1 is a and rs2 is b.
#[inline(always)]
pub fn branch_taken(op: Op, a: u64, b: u64) -> bool
    requires { class_of op ≡ Class.Branch }
    ensures { result ≡ is_taken op a b }
{
    match op {
        Op::Beq => a == b,
        Op::Bne => a != b,
        Op::Blt => signed(a) < signed(b),
        Op::Bge => signed(a) >= signed(b),
        Op::Bltu => a < b,
        Op::Bgeu => a >= b,
        _ => unreachable!(),
    }
}

/// The address that a jump or a taken branch at pc goes to, where rs1 is a and the
/// immediate is i.
#[inline(always)]
pub fn target(op: Op, pc: u64, a: u64, i: u64) -> u64
    requires { (class_of op ≡ Class.Jump) ⊎ (class_of op ≡ Class.Branch) }
    ensures { result ≡ jump_place op pc a i }
{
    match op {
        Op::Jalr => sum(a, i) & !1,
        _ => sum(pc, i),
    }
}
