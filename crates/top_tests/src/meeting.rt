//! A door and a source by which a test sees that workers run beside one another.
ghost use Rattle.edge_ports.specs.InMemory.{source_end};

use edge_ports::{Failed, MemorySource, Source};
use std::sync::atomic::AtomicU64;
use std::sync::atomic::Ordering::SeqCst;
use stop_gate::Door;

/// After so many looks a worker gives up.
const LOOKS: u32 = 100_000_000;

/// What the door and the source share.
#[derive(Drop)]
pub struct Meeting {
    /// The takes of the source.
    takes: AtomicU64,
    /// 1 from the ask on in which the first worker stays.
    stays: AtomicU64,
    /// 1 where a worker has given up.
    failed: AtomicU64,
}

impl Meeting {
    pub fn new() -> Meeting {
        Meeting {
            takes: AtomicU64::new(0),
            stays: AtomicU64::new(0),
            failed: AtomicU64::new(0),
        }
    }

    /// Whether the first worker stayed, and no worker gave up.
    pub fn was_met(&self) -> bool {
        self.stays.load(SeqCst) == 1 && self.failed.load(SeqCst) == 0
    }

    /// Looks at a word until it is as great.
    fn wait_for(&self, word: &AtomicU64, least: u64) {
        for _ in 0..LOOKS {
            if word.load(SeqCst) >= least {
                return;
            }
            std::hint::spin_loop();
        }
        self.failed.store(1, SeqCst);
    }
}

impl Door for Meeting {
    /// The first worker stays once, from the first take on until there is a second one. The others
    /// stay until it does: so they make the second take, and it makes the first.
    fn ask(&self, hart: u8) {
        if hart != 0 {
            self.wait_for(&self.stays, 1);
        } else if self.takes.load(SeqCst) >= 1 && self.stays.swap(1, SeqCst) == 0 {
            self.wait_for(&self.takes, 2);
        }
    }
}

/// A source that notes its takes.
#[derive(Drop)]
pub struct Noted<'a> {
    pub source: MemorySource,
    pub meeting: &'a Meeting,
}

impl Source for Noted<'_> {
    ghost end = { λ noted. source_end noted.source };

    fn take(&mut self, into: &mut [u8]) -> Result<usize, Failed> {
        self.meeting.takes.fetch_add(1, SeqCst);
        self.source.take(into)
    }
}
