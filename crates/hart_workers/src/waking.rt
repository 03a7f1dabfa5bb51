//! Which harts a turn has made ready. No clause speaks of it.
use crate::sleepers::Sleepers;
use crate::turned::Turned;
use edge_ports::{Port, Sink, Source};
use guest_words::HartState;
use machine_core::{Origin, Quiet};

/// What tells whether a turn of a hart made another ready: how many others wait, and the tid of the
/// next hart that is made.
#[derive(Clone, Copy, Debug, PartialEq, Eq)]
pub struct Others {
    waiting: usize,
    next_tid: u32,
}

impl Others {
    /// Of the hart, beside the others.
    pub fn of<K: Origin, S: Source, T: Sink, P: Port>(
        machine: &Quiet<K, S, T, P>,
        hart: u8,
    ) -> Others {
        let waits = match machine.hart(hart) {
            Some(now) => matches!(now.state, HartState::Waiting(_)),
            None => false,
        };
        Others {
            waiting: machine.queue().len().saturating_sub(usize::from(waits)),
            next_tid: machine.next_tid(),
        }
    }

    /// Whether another hart was woken or made since.
    pub fn are_more_ready(&self, now: Others) -> bool {
        now.waiting < self.waiting || now.next_tid != self.next_tid
    }
}

/// Wakes the workers of all harts that are ready.
pub fn wake_ready<K: Origin, S: Source, T: Sink, P: Port>(
    machine: &Quiet<K, S, T, P>,
    sleepers: &Sleepers,
) {
    for hart in 0..machine.harts() as u8 {
        if machine.is_ready(hart) {
            sleepers.wake(hart);
        }
    }
}

/// Tells the sleepers what a turn of a hart came to.
pub fn tell<K: Origin, S: Source, T: Sink, P: Port>(
    machine: &Quiet<K, S, T, P>,
    hart: u8,
    before: Others,
    turned: Turned,
    sleepers: &Sleepers,
) {
    match turned {
        Turned::Over => sleepers.wake_all(),
        Turned::Idle => sleepers.rest(hart),
        _ => {
            if before.are_more_ready(Others::of(machine, hart)) {
                wake_ready(machine, sleepers);
            }
        }
    }
}
