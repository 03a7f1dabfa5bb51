use crate::Queue;
use guest_words::Waiter;
use std::test::Fail;

const PLACE: u64 = 0x20000;

/// Harts 1, 4 and 2 wait at one place, and hart 3 between them at another.
fn four_waiters() -> Queue {
    let mut queue = Queue::new();
    queue.enqueue(1, PLACE);
    queue.enqueue(4, PLACE);
    queue.enqueue(3, PLACE + 4);
    queue.enqueue(2, PLACE);
    queue
}

fn waiter(slot: u8, place: u64) -> Option<Waiter> {
    Some(Waiter { slot, place })
}

#[test]
fn the_longest_waiting_are_woken(rt: HostRuntime) {
    let mut queue = four_waiters();
    let woken = queue.wake(PLACE, 2);
    assert_eq!(rt; woken.count, 2);
    assert!(rt; woken.slots[1] && woken.slots[4] && !woken.slots[2] && !woken.slots[3]);
    assert_eq!(rt; queue.len(), 2);
    assert_eq!(rt; queue.waiter(0), waiter(3, PLACE + 4));
    assert_eq!(rt; queue.waiter(1), waiter(2, PLACE));
    assert_eq!(rt; queue.waiter(2), None);
}

#[test]
fn a_kept_queue_is_restored(rt: HostRuntime) -> Result<(), Fail> {
    let mut queue = four_waiters();
    let kept = queue.keep(rt.alloc())?;
    queue.wake(PLACE, 4);
    assert_eq!(rt; kept.waiter(1), waiter(4, PLACE));
    queue.restore(kept);
    assert_eq!(rt; queue.len(), 4);
    assert_eq!(rt; queue.waiter(3), waiter(2, PLACE));
    Ok(())
}

#[test]
fn where_none_wait_none_are_kept(rt: HostRuntime) -> Result<(), Fail> {
    let kept = Queue::new().keep(rt.alloc())?;
    let mut queue = four_waiters();
    queue.restore(kept);
    assert!(rt; queue.is_empty());
    Ok(())
}
