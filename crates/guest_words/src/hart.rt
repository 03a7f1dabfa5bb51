ghost use Rattle.std.specs.Prelude.{◌≡◌, IfOk};

use crate::frames::Frames;
use crate::memory_want::MemoryWant;
use crate::point::PointRef;
use crate::width::Width;
use std::alloc::Global;

/// Whether a hart may go on.
#[derive(Clone, Copy, Debug, PartialEq, Eq)]
pub enum HartState {
    Ready,
    /// It waits at this guest address to be woken.
    Waiting(u64),
    /// It has exited, with this code.
    Gone(u64),
    /// No hart is in the slot.
    Empty,
}

/// The bytes that a hart has reserved by a load-reserved.
#[derive(Clone, Copy, Debug, PartialEq, Eq)]
pub struct Reserved {
    pub address: u64,
    /// 4 or 8 bytes.
    pub width: Width,
}

/// A hardware thread.
#[derive(Clone, Copy, Debug, PartialEq, Eq)]
pub struct Hart {
    pub pc: u64,
    /// x0 to x31; x0 is 0.
    pub regs: [u64; 32],
    /// Whether its last act was JAL or JALR; only then can it arrive at a point.
    pub arrived: bool,
    pub reservation: Option<Reserved>,
    pub state: HartState,
    pub tid: u32,
    /// Where its exit clears a word and wakes a waiter, or 0.
    pub clear: u64,
}

impl Hart {
    /// What a slot holds before its first hart.
    pub const EMPTY: Hart = Hart {
        pc: 0,
        regs: [0; 32],
        arrived: false,
        reservation: None,
        state: HartState::Empty,
        tid: 0,
        clear: 0,
    };
}

/// A rescue point that a hart is under: the return address and the stack at its entry.
#[derive(Clone, Copy, Debug, PartialEq, Eq)]
pub struct Frame {
    pub point: PointRef,
    pub ra: u64,
    pub sp: u64,
}

/// A hart with its open frames, the innermost last.
#[derive(Drop)]
pub struct Slot {
    pub hart: Hart,
    pub frames: Frames,
}

impl Slot {
    /// An equal slot.
    pub fn copy(&self, alloc: Global) -> Result<Slot, MemoryWant>
        ensures ok { IfOk result (λ slot. slot ≡ self.now) }
    {
        Ok(Slot {
            hart: self.hart,
            frames: self.frames.copy(alloc)?,
        })
    }
}

/// A hart that waits at a guest address.
#[derive(Clone, Copy, Debug, PartialEq, Eq)]
pub struct Waiter {
    pub slot: u8,
    pub place: u64,
}
