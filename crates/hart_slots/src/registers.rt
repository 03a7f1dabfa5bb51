ghost use Rattle.std.specs.Prelude.{◌≡◌, ◌<◌};
ghost use Rattle.guest_words.specs.Harts.{past, with_reg};
ghost use Rattle.guest_words.specs.CallChanges.{answered};
ghost use Rattle.run_history.specs.After.{given_back};

use guest_words::abi::{A0, RA};
use guest_words::{Hart, Ret};

/// A register gets a value; a write to x0 is lost.
pub(crate) fn with_reg(hart: &Hart, r: usize, value: u64) -> Hart
    requires register { r < 32 }
    ensures value { result ≡ with_reg hart.now r value }
{
    let mut next = *hart;
    if r != 0 {
        next.regs[r] = value;
    }
    next
}

/// The hart behind an instruction that is no jump and link.
fn past(hart: &Hart) -> Hart
    ensures value { result ≡ past hart.now }
{
    Hart {
        pc: hart.pc.wrapping_add(4),
        arrived: false,
        ..*hart
    }
}

/// The hart behind its call, with the answer.
pub(crate) fn answered(hart: &Hart, value: i64) -> Hart
    ensures value { result ≡ answered value hart.now }
{
    with_reg(&past(hart), A0, value.cast_unsigned())
}

/// Makes the hart return at once from the call that it has just come to.
pub(crate) fn give_back(hart: &mut Hart, ret: Ret)
    ensures value { hart.new ≡ given_back ret hart.old }
{
    hart.pc = hart.regs[RA];
    hart.arrived = false;
    if let Ret::Code(value) = ret {
        hart.regs[A0] = value;
    }
}
