ghost use Rattle.std.specs.Prelude.{◌≡◌, IfOk};

use futex_table::{KeptQueue, Queue};
use guest_atomics::{Harts, KeptHarts};
use guest_words::MemoryWant;
use std::alloc::Global;

/// What a rescue puts back, but for memory, and how many records there were.
#[derive(Drop)]
pub struct Checkpoint {
    pub harts: KeptHarts,
    pub queue: KeptQueue,
    /// The number of calls on devices before.
    pub records: u64,
    pub next_tid: u32,
}

impl Checkpoint {
    /// The harts and the waiting list, kept, with the two numbers.
    pub fn of(
        alloc: Global,
        harts: &Harts,
        queue: &Queue,
        records: u64,
        next_tid: u32,
    ) -> Result<Checkpoint, MemoryWant>
        ensures harts { IfOk result (λ kept. kept.harts ≡ harts.now) }
        ensures queue { IfOk result (λ kept. kept.queue ≡ queue.now) }
        ensures records { IfOk result (λ kept. kept.records ≡ records) }
        ensures next_tid { IfOk result (λ kept. kept.next_tid ≡ next_tid) }
    {
        Ok(Checkpoint {
            harts: harts.keep(alloc)?,
            queue: queue.keep(alloc)?,
            records,
            next_tid,
        })
    }
}
