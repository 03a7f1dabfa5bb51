ghost use Rattle.std.specs.Prelude.{◌≡◌, ◌≤◌, take, length};
ghost use Rattle.guest_words.specs.Harts.{is_over, close_frames};

use guest_words::{Frame, Hart};

/// How many of a hart's frames stay open, of which the innermost stands last. From the innermost
/// on each closes whose call is over: the stack pointer is above that of the entry, or the hart is
/// at the return address with the stack pointer of the entry. Takes no memory.
pub fn closed_after(hart: &Hart, frames: &[Frame]) -> usize
    ensures within { result ≤ length frames.now }
    ensures value { close_frames hart.now frames.now ≡ take result frames.now }
{
    match frames {
        [below @ .., last] if is_over(hart, last) => closed_after(hart, below),
        _ => frames.len(),
    }
}

/// Whether the call under a frame is over: the stack pointer is above that of the entry, or the
/// hart is at the return address with the stack pointer of the entry. Takes no memory.
#[inline(always)]
pub fn is_over(hart: &Hart, frame: &Frame) -> bool
    ensures value { result ≡ is_over hart.now frame.now }
{
    let sp = hart.regs[2];
    frame.sp < sp || hart.pc == frame.ra && sp == frame.sp
}
