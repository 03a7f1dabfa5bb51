//! How the workers of harts that aren't ready sleep, until a turn of another has made them ready.
//! No clause speaks of it.
use crossbeam_utils::Backoff;
use std::alloc::{AllocError, Global};
use std::sync::Wait;
use std::sync::atomic::{AtomicU64, Ordering};

/// A worker hasn't begun.
const ABSENT: u64 = 3;

/// A worker is to look at its hart.
const AWAKE: u64 = 0;

/// Its hart isn't ready, and nobody has made it so.
const IDLE: u64 = 1;

/// It sleeps at its word.
const ASLEEP: u64 = 2;

/// So often a worker looks, and lets others run between, before it falls asleep: about as long as
/// the system takes to wake it.
const LOOKS: u32 = 256;

/// A word for the worker of each hart.
///
/// A worker says that its hart isn't ready while it has the machine, and whoever makes the hart
/// ready has the machine later, and then wakes the worker. So none sleeps whose hart is ready.
#[derive(Drop)]
pub struct Sleepers {
    words: Vec<AtomicU64>,
}

impl Sleepers {
    /// All workers of so many harts, none of which has begun.
    pub fn new(alloc: Global, harts: u8) -> Result<Sleepers, AllocError> {
        let mut words = Vec::new(alloc);
        for _ in 0..harts {
            words.push(AtomicU64::new(ABSENT))?;
        }
        Ok(Sleepers { words })
    }

    /// The worker of the hart begins.
    pub fn begin(&self, hart: u8) {
        if let Some(word) = self.words.get(usize::from(hart)) {
            word.store(AWAKE, Ordering::SeqCst);
        }
    }

    /// Whether the worker of the hart hasn't begun.
    pub fn is_absent(&self, hart: u8) -> bool {
        match self.words.get(usize::from(hart)) {
            Some(word) => word.load(Ordering::SeqCst) == ABSENT,
            None => false,
        }
    }

    /// The hart isn't ready, as its worker has found, which still has the machine.
    pub fn rest(&self, hart: u8) {
        if let Some(word) = self.words.get(usize::from(hart)) {
            word.store(IDLE, Ordering::SeqCst);
        }
    }

    /// The hart may be ready.
    pub fn wake(&self, hart: u8) {
        if let Some(word) = self.words.get(usize::from(hart)) {
            wake(word);
        }
    }

    /// The machine is over.
    pub fn wake_all(&self) {
        for word in &self.words {
            wake(word);
        }
    }

    /// Waits until the worker of the hart is woken: awake for a little while, and then asleep.
    pub fn sleep<R: Wait>(&self, rt: &R, hart: u8) {
        let Some(word) = self.words.get(usize::from(hart)) else {
            return;
        };
        let pause = Backoff::new();
        let mut looks = 0;
        for _ in rt.forever() {
            if word.load(Ordering::SeqCst) == AWAKE {
                return;
            }
            if looks < LOOKS {
                looks += 1;
                pause.snooze();
            } else {
                fall_asleep(rt, word);
            }
        }
    }
}

/// Wakes the worker of this word, unless it is awake or hasn't begun.
fn wake(word: &AtomicU64) {
    let rests = matches!(word.load(Ordering::SeqCst), IDLE | ASLEEP);
    if rests && word.swap(AWAKE, Ordering::SeqCst) == ASLEEP {
        word.wake_one();
    }
}

/// Sleeps at a word until it is woken. It may also return for no reason.
fn fall_asleep<R: Wait>(rt: &R, word: &AtomicU64) {
    if word.compare_exchange(IDLE, ASLEEP, Ordering::SeqCst, Ordering::SeqCst) != Err(AWAKE) {
        word.park(rt, ASLEEP as u32);
    }
}
