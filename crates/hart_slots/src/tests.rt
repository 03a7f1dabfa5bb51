//! Calls once, and in an order that no clause speaks of.

use crate::Slots;
use futex_table::{SLOTS, Woken};
use guest_words::linux::{CLONE_CHILD_CLEARTID, CLONE_THREAD, CLONE_VM};
use guest_words::{Hart, HartState, PointRef};
use std::alloc::Global;
use std::test::Fail;

const FLAGS: u64 = CLONE_VM | CLONE_THREAD | CLONE_CHILD_CLEARTID;

const STACK: u64 = 0x3f_0000;

const PLACE: u64 = 0x2_0000;

const POINT: PointRef = PointRef { entry: 0x1_0010 };

/// Two harts, of which the second is a child of the first, which has a frame open.
fn parent_and_child(alloc: Global) -> Result<Slots, Fail> {
    let mut slots = Slots::start(alloc, 0x1_0000, 2)?;
    slots.open(0, POINT)?;
    slots.add(0, 1, FLAGS, STACK, 0, PLACE, 2);
    Ok(slots)
}

fn state(slots: &Slots, h: u8) -> Option<HartState> {
    slots.hart(h).map(|hart: &Hart| hart.state)
}

#[test]
fn clone_and_wake(rt: HostRuntime) -> Result<(), Fail> {
    let mut slots = parent_and_child(rt.alloc())?.copy(rt.alloc())?;
    assert!(rt; slots.frame_count(0) == 1 && slots.frame_count(1) == 0);
    slots.wait(1, PLACE);
    assert!(rt; state(&slots, 1) == Some(HartState::Waiting(PLACE)));
    let mut marks = [false; SLOTS];
    marks[1] = true;
    slots.wake(&Woken {
        slots: marks,
        count: 1,
    });
    assert!(rt; state(&slots, 1) == Some(HartState::Ready) && slots.is_ready(0));
    Ok(())
}
