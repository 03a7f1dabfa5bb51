ghost use Rattle.std.specs.Prelude.{◌≡◌};
ghost use Rattle.guest_words.specs.CallChanges.{child_of, with_stack, with_tls};

use crate::registers::{answered, with_reg};
use guest_words::abi::{SP, TP};
use guest_words::linux::{CLONE_CHILD_CLEARTID, CLONE_SETTLS};
use guest_words::{Hart, HartState};

fn with_stack(hart: Hart, stack: u64) -> Hart
    ensures value { result ≡ with_stack stack hart }
{
    if stack == 0 {
        hart
    } else {
        with_reg(&hart, SP, stack)
    }
}

fn with_tls(hart: Hart, flags: u64, tls: u64) -> Hart
    ensures value { result ≡ with_tls flags tls hart }
{
    if flags & CLONE_SETTLS != 0 {
        with_reg(&hart, TP, tls)
    } else {
        hart
    }
}

/// The new hart of a clone: its parent's registers behind the call, with x10 = 0.
pub(crate) fn child_of(
    parent: &Hart,
    flags: u64,
    stack: u64,
    tls: u64,
    child: u64,
    tid: u32,
) -> Hart
    ensures value { result ≡ child_of flags stack tls child tid parent.now }
{
    let clears = flags & CLONE_CHILD_CLEARTID != 0;
    Hart {
        reservation: None,
        state: HartState::Ready,
        tid,
        clear: if clears { child } else { 0 },
        ..with_tls(with_stack(answered(parent, 0), stack), flags, tls)
    }
}
