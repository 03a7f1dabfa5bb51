ghost use Rattle.std.specs.Prelude.{◌≡◌};
ghost use Rattle.guest_words.specs.Harts.{frame_of};

use guest_words::{Frame, Hart, PointRef};

/// The frame that opens where a hart enters a point: it keeps the return address, x1, and the
/// stack pointer, x2. Takes no memory.
pub fn opened(hart: &Hart, point: PointRef) -> Frame
    ensures value { result ≡ frame_of hart.now point }
{
    Frame {
        point,
        ra: hart.regs[1],
        sp: hart.regs[2],
    }
}
