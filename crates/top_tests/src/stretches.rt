//! Register acts of a hart that are made beside a run.
ghost use Rattle.hart_step.specs.InPlace.{HasZero};

use crate::image::{TEXT, image};
use crate::replay::loaded;
use guest_words::limits::STACK_POINTER;
use guest_words::{Hart, HartState, Points};
use hart_step::{Text, run_registers};
use std::alloc::{AllocError, Global};
use std::test::Fail;

// ld x5,0(x2)
const LOADS: [u32; 1] = [0x00013283];

// addi x5,x0,9; slli x6,x5,3; ld x7,0(x2)
const COUNTS: [u32; 3] = [0x00900293, 0x00329313, 0x00013383];

// The first hart of a run.
fn first() -> Hart
    ensures zero { HasZero result }
{
    let mut hart = Hart::EMPTY;
    hart.pc = TEXT;
    hart.regs[2] = STACK_POINTER;
    hart.state = HartState::Ready;
    hart.tid = 1;
    hart
}

// The hart after as many register acts as the first one can make, and their number.
fn stretch(alloc: Global, words: &[u32]) -> Result<(Hart, u32), AllocError> {
    let file = image(alloc, words, None)?;
    let image = loaded(alloc, file.as_slice())?;
    let Ok(text) = Text::of(alloc, &image) else {
        return Err(AllocError);
    };
    let points = Points::of(Vec::new(alloc));
    Ok(run_registers(first(), &text, &points, 4096))
}

// A stretch stops before the first instruction that looks at memory.
#[test]
fn empty_stretch(rt: HostRuntime) -> Result<(), Fail> {
    let (hart, count) = stretch(rt.alloc(), &LOADS)?;
    assert_eq!(rt; count, 0);
    assert!(rt; hart == first());

    let (hart, count) = stretch(rt.alloc(), &COUNTS)?;
    let mut after = first();
    after.pc = TEXT + 8;
    after.regs[5] = 9;
    after.regs[6] = 72;
    assert_eq!(rt; count, 2);
    assert!(rt; hart == after);
    Ok(())
}
