use crate::Checkpoint;
use futex_table::Queue;
use guest_atomics::Harts;
use guest_words::{Hart, HartState, Waiter};
use std::test::Fail;

const WAITER: Waiter = Waiter {
    slot: 0,
    place: 0x20000,
};

fn waiting_hart() -> Hart {
    Hart {
        state: HartState::Waiting(WAITER.place),
        tid: 1,
        ..Hart::EMPTY
    }
}

#[test]
fn kept_values_are_put_back(rt: HostRuntime) -> Result<(), Fail> {
    let mut harts = Harts::start(rt.alloc(), waiting_hart(), 2)?;
    let mut queue = Queue::new();
    queue.enqueue(WAITER.slot, WAITER.place);
    let kept = Checkpoint::of(rt.alloc(), &harts, &queue, 4, 3)?;
    queue.wake(WAITER.place, 1);
    harts.hart_mut(0).state = HartState::Ready;
    assert!(rt; kept.records == 4 && kept.next_tid == 3);
    queue.restore(kept.queue);
    harts.put_back(kept.harts);
    assert_eq!(rt; queue.waiter(0), Some(WAITER));
    assert!(rt; harts.items() == [waiting_hart(), Hart::EMPTY].as_slice());
    Ok(())
}
