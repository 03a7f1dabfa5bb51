//! What can be read of the state. No call here takes memory, but for `bytes_at`.
ghost use Rattle.std.specs.Prelude.{◌≡◌, ◌+◌, ◌^◌, ◌≤◌, ◌==◌, ℕ, false, length, slice_get, IfOk};
ghost use Rattle.std.specs.Option.{option_copied, option_map};
ghost use Rattle.guest_words.specs.CallChanges.{each_other};
ghost use Rattle.guest_words.specs.declared.limits.TheConstants.{BUDGET, HARTS};
ghost use Rattle.guest_words.specs.Endings.{is_budget_spent, is_stuck};
ghost use Rattle.guest_words.specs.Space.{bytes_at};
ghost use Rattle.guest_words.specs.State.{frames_at};
ghost use Rattle.hart_slots.specs.Rejoined.{frames_of, hart_of};
ghost use Rattle.run_history.specs.Legal.{is_ready_at};
ghost use Rattle.hart_step.specs.Live.{space_of};
ghost use Rattle.hart_step.specs.Stretches.{steps_left};

use crate::engine::Engine;
use futex_table::Queue;
use guest_memory::Memory;
use guest_words::limits::RECORD_BYTES;
use guest_words::{Bytes, Ending, Frame, Hart, MemoryWant, Points};
use std::alloc::Global;

impl Engine {
    /// The number of slots, at most 64.
    pub fn harts(&self) -> usize
        ensures value { result ≡ length self.now.state.slots }
        ensures most { length self.now.state.slots ≤ HARTS }
    {
        self.slots.len()
    }

    /// A slot from which on no hart is ready, seldom past those that have had a hart.
    pub fn used(&self) -> usize
        ensures within { result ≤ length self.now.state.slots }
        ensures idle { (h : ℕ) → result ≤ h → is_ready_at self.now.state h ≡ false }
        ensures most { length self.now.state.slots ≤ HARTS }
    {
        let _at_most_64 = self.slots.len();
        self.slots.used()
    }

    /// The hart in a slot.
    pub fn hart(&self, hart: u8) -> Option<&Hart>
        ensures value { option_copied result
            ≡ option_map hart_of (slice_get self.now.state.slots hart) }
    {
        self.slots.hart(hart)
    }

    /// The open frames of the hart in a slot, the innermost last; none where no slot is.
    pub fn frames(&self, hart: u8) -> &[Frame]
        ensures value { result.now ≡ frames_of (slice_get self.now.state.slots hart) }
    {
        self.slots.frames(hart)
    }

    /// How many frames the hart in a slot has open; 0 where no slot is.
    pub fn frame_count(&self, hart: u8) -> usize
        ensures value { result ≡ frames_at self.now.state hart }
    {
        self.slots.frame_count(hart)
    }

    /// The harts that wait, the longest waiting first.
    pub fn queue(&self) -> &Queue
        ensures value { result.now ≡ self.now.state.waiting }
    {
        &self.queue
    }

    /// The tid of the next hart that is made.
    pub fn next_tid(&self) -> u32
        ensures value { result ≡ self.now.state.next_tid }
    {
        self.next_tid
    }

    /// Memory, with its breaks.
    pub fn memory(&self) -> &Memory
        ensures value { result.now ≡ space_of self.now }
    {
        self.guest.memory()
    }

    /// The points, each with the rescues that are left to it.
    pub fn points(&self) -> &Points
        ensures value { result.now ≡ self.now.state.points }
    {
        self.guest.points()
    }

    /// The points, each with what is left of its rescues.
    pub fn into_points(self) -> Points
        ensures value { result ≡ self.state.points }
    {
        self.guest.into_points()
    }

    /// The steps so far: instructions and calls on devices, those of rescued calls included.
    pub fn steps(&self) -> u64
        ensures value { result ≡ self.now.state.steps }
        ensures within { self.now.state.steps ≤ self.now.state.budget }
    {
        self.steps
    }

    /// The greatest number of steps.
    pub fn budget(&self) -> u64
        ensures value { result ≡ self.now.state.budget }
        ensures most { self.now.state.budget ≤ BUDGET }
    {
        self.budget
    }

    /// How many steps may still be made; 0 where the records have passed their limit of bytes.
    pub fn steps_left(&self) -> u64
        ensures value { result ≡ steps_left self.now.state }
    {
        if self.bytes > RECORD_BYTES {
            0
        } else {
            self.budget - self.steps
        }
    }

    /// The number of ports.
    pub fn ports(&self) -> u64
        ensures value { result ≡ self.now.state.ports }
    {
        self.ports
    }

    /// How the run has ended, if it has.
    pub fn ending(&self) -> Option<Ending>
        ensures value { result ≡ self.now.state.ending }
    {
        self.ending
    }

    /// Whether the steps are the budget, or the records have passed their limit of bytes.
    pub fn is_budget_spent(&self) -> bool
        ensures value { result ≡ is_budget_spent self.now.state }
    {
        self.steps == self.budget || self.bytes > RECORD_BYTES
    }

    /// Whether no hart is ready.
    pub fn is_stuck(&self) -> bool
        ensures value { result ≡ is_stuck self.now.state }
    {
        !self.slots.any_ready()
    }

    /// Whether the hart in a slot is ready; false where no slot is.
    pub fn is_ready(&self, hart: u8) -> bool
        ensures value { result ≡ is_ready_at self.now.state hart }
    {
        self.slots.is_ready(hart)
    }

    /// Whether no hart but this one has a frame open.
    pub fn is_alone(&self, hart: u8) -> bool
        ensures value { result
            ≡ each_other (λ slot. length slot.frames == 0) hart self.now.state.slots }
    {
        self.slots.is_alone(hart)
    }

    /// So many bytes of memory from an address on; an address in no page reads as 0.
    pub fn bytes_at(&self, alloc: Global, place: u64, count: u32) -> Result<Bytes, MemoryWant>
        ensures ok { IfOk result (λ bytes. bytes ≡ bytes_at self.now.state.memory place count) }
    {
        if u64::from(count) <= u64::MAX - place {
            self.guest.memory().bytes_at(alloc, place, count)
        } else {
            bytes_to_end(alloc, self.guest.memory(), place, count)
        }
    }
}

// Where a range passes the last address: behind that no page lies.
fn bytes_to_end(alloc: Global, memory: &Memory, place: u64, count: u32) -> Result<Bytes, MemoryWant>
    requires past { 2 ^ 64 ≤ place + count }
    ensures ok { IfOk result (λ bytes. bytes ≡ bytes_at memory.now.space place count) }
{
    let None = memory.page_from(u64::MAX) else {
        unreachable!();
    };
    let there = u64::MAX - place + 1;
    let mut bytes = memory.bytes_at(alloc, place, there as u32)?.into_vec();
    bytes.resize(count as usize, 0)?;
    Ok(Bytes::of(bytes))
}
