//! How a worker pauses between two tries. No clause speaks of it.
use crate::sleepers::Sleepers;
use crossbeam_utils::Backoff;
use std::sync::Wait;

/// The greatest number of pauses behind a turn in which the hart wasn't ready.
const MOST: u32 = 64;

/// Pauses of a worker: short while another has the machine, and longer and longer while its hart
/// isn't ready, since each such turn takes the machine from the harts that are.
#[derive(Drop)]
pub struct Pause {
    backoff: Backoff,
    naps: u32,
}

impl Pause {
    pub fn new() -> Pause {
        Pause {
            backoff: Backoff::new(),
            naps: 1,
        }
    }

    /// The hart went on: the next try comes at once.
    pub fn end(&mut self) {
        self.backoff.reset();
        self.naps = 1;
    }

    /// Another has the machine, or stops all.
    pub fn short(&self) {
        self.backoff.snooze();
    }

    /// The hart isn't ready: its worker sleeps, where workers are woken.
    pub fn long<R: Wait>(&mut self, rt: &R, sleepers: Option<&Sleepers>, hart: u8) {
        match sleepers {
            Some(sleepers) => sleepers.sleep(rt, hart),
            None => self.longer(),
        }
    }

    fn longer(&mut self) {
        for _ in 0..self.naps {
            self.backoff.snooze();
        }
        self.naps = self.naps.saturating_mul(2).min(MOST);
    }
}
