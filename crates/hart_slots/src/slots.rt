ghost use Rattle.std.specs.Prelude.{◌≡◌, ◌≤◌, [], replicate, IfOk};
ghost use Rattle.guest_words.specs.declared.limits.TheConstants.{HARTS};
ghost use Rattle.guest_words.specs.Start.{first_hart, start_slots};

use guest_atomics::Harts;
use guest_words::abi::SP;
use guest_words::limits::STACK_POINTER;
use guest_words::{Frames, Hart, HartState, MemoryWant};
use std::alloc::Global;
use std::marker::Model;

/// The harts by slot, each with its open frames; at most 64. They know whether a hart may hold a
/// reservation, so that a store need not look at each.
#[derive(Drop)]
pub struct Slots {
    pub(crate) harts: Harts,
    pub(crate) frames: Vec<Frames>,
}

impl Model for Slots {
    ghost use Rattle.std.specs.Prelude.{List, ◌≡◌, ◌≤◌, length};
    ghost use Rattle.guest_words.specs.declared.limits.TheConstants.{HARTS};
    ghost use Rattle.guest_words.specs.declared.hart.Slot.{Slot};
    ghost use Rattle.hart_slots.specs.Rejoined.{joined};

    ghost Value = { List Slot };

    ghost view = { λ s. joined s.harts s.frames.items };

    ghost invariant = { λ s. (length s.harts ≡ length s.frames.items)
        × (length s.harts ≤ HARTS) };
}

impl Slots {
    /// So many slots, the first with a hart at the entry. `harts` is 1 to 64.
    pub fn start(alloc: Global, entry: u64, harts: u8) -> Result<Slots, MemoryWant>
        requires some { 1 ≤ harts }
        requires most { harts ≤ HARTS }
        ensures ok { IfOk result (λ slots. slots ≡ start_slots entry harts) }
    {
        Ok(Slots {
            harts: Harts::start(alloc, first(entry), usize::from(harts))?,
            frames: no_frames(alloc, harts)?,
        })
    }

    /// Equal slots.
    pub fn copy(&self, alloc: Global) -> Result<Slots, MemoryWant>
        ensures ok { IfOk result (λ slots. slots ≡ self.now) }
    {
        Ok(Slots {
            harts: self.harts.copy(alloc)?,
            frames: copies(alloc, self.frames.as_slice())?,
        })
    }
}

fn first(entry: u64) -> Hart
    ensures value { result ≡ first_hart entry }
{
    let mut hart = Hart::EMPTY;
    hart.pc = entry;
    hart.regs[SP] = STACK_POINTER;
    hart.state = HartState::Ready;
    hart.tid = 1;
    hart
}

fn no_frames(alloc: Global, count: u8) -> Result<Vec<Frames>, MemoryWant>
    ensures ok { IfOk result (λ frames. frames.items ≡ replicate count []) }
{
    let mut frames = Vec::new(alloc);
    for _ in 0..count {
        frames.push(Frames::new(alloc))?;
    }
    Ok(frames)
}

fn copies(alloc: Global, frames: &[Frames]) -> Result<Vec<Frames>, MemoryWant>
    ensures ok { IfOk result (λ copies. copies.items ≡ frames.now) }
{
    let mut copies = Vec::new(alloc);
    for each in frames {
        copies.push(each.copy(alloc)?)?;
    }
    Ok(copies)
}
