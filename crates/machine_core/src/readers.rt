//! What can be read of a machine with no call open. No call here takes memory.
ghost use Rattle.std.specs.Prelude.{◌≡◌, ◌≤◌, ℕ, false, length, slice_get};
ghost use Rattle.std.specs.Option.{option_copied, option_map};
ghost use Rattle.guest_words.specs.declared.limits.TheConstants.{HARTS};
ghost use Rattle.hart_slots.specs.Rejoined.{hart_of};
ghost use Rattle.run_history.specs.Legal.{is_ready_at};
ghost use Rattle.machine_core.specs.Machine.{IsAsTold};

use crate::machine::{Core, Quiet};
use crate::origin::Origin;
use edge_ports::{Port, Sink, Source};
use futex_table::Queue;
use guest_memory::Memory;
use guest_words::{Ending, Hart, Points};
use run_history::History;

impl<K: Origin, S: Source, T: Sink, P: Port> Quiet<K, S, T, P> {
    /// How the run has ended, if it has.
    pub fn ending(&self) -> Option<Ending>
        ensures value { result ≡ self.now.state.ending }
        ensures told { IsAsTold K.state self.now }
    {
        let core: &Core<K, S, T, P> = &self.core;
        core.inner.ending()
    }

    /// The number of entries of the history, those of insides not counted.
    pub fn length(&self) -> usize
        ensures value { result ≡ length self.now.history }
    {
        let core: &Core<K, S, T, P> = &self.core;
        core.inner.calls.history().items().len()
    }

    /// The steps so far: instructions and calls on devices, those of rescued calls included.
    pub fn executed(&self) -> u64
        ensures value { result ≡ self.now.state.steps }
    {
        let core: &Core<K, S, T, P> = &self.core;
        core.inner.engine.steps()
    }

    /// Whether it isn't to go on, though its run hasn't ended.
    pub fn abandoned(&self) -> bool
        ensures value { result ≡ self.now.abandoned }
    {
        let core: &Core<K, S, T, P> = &self.core;
        core.inner.abandoned
    }

    /// What has happened so far.
    pub fn history(&self) -> &History
        ensures list { result.now.entries ≡ self.now.history }
    {
        let core: &Core<K, S, T, P> = &self.core;
        core.inner.calls.history()
    }

    /// The number of slots for harts.
    pub fn harts(&self) -> usize
        ensures value { result ≡ length self.now.state.slots }
        ensures most { length self.now.state.slots ≤ HARTS }
    {
        let core: &Core<K, S, T, P> = &self.core;
        core.inner.engine.harts()
    }

    /// A slot from which on no hart is ready, seldom past those that have had a hart.
    pub fn used(&self) -> usize
        ensures within { result ≤ length self.now.state.slots }
        ensures idle { (h : ℕ) → result ≤ h → is_ready_at self.now.state h ≡ false }
        ensures most { length self.now.state.slots ≤ HARTS }
    {
        let core: &Core<K, S, T, P> = &self.core;
        core.inner.engine.used()
    }

    /// The hart in a slot.
    pub fn hart(&self, slot: u8) -> Option<&Hart>
        ensures value { option_copied result
            ≡ option_map hart_of (slice_get self.now.state.slots slot) }
    {
        let core: &Core<K, S, T, P> = &self.core;
        core.inner.engine.hart(slot)
    }

    /// Whether the hart in a slot is ready; false where no slot is.
    pub fn is_ready(&self, slot: u8) -> bool
        ensures value { result ≡ is_ready_at self.now.state slot }
    {
        let core: &Core<K, S, T, P> = &self.core;
        core.inner.engine.is_ready(slot)
    }

    /// The harts that wait, the longest waiting first.
    pub fn queue(&self) -> &Queue
        ensures value { result.now ≡ self.now.state.waiting }
    {
        let core: &Core<K, S, T, P> = &self.core;
        core.inner.engine.queue()
    }

    /// The tid of the next hart that is made.
    pub fn next_tid(&self) -> u32
        ensures value { result ≡ self.now.state.next_tid }
    {
        let core: &Core<K, S, T, P> = &self.core;
        core.inner.engine.next_tid()
    }

    /// Memory, with its breaks.
    pub fn memory(&self) -> &Memory
        ensures space { result.now.space ≡ self.now.state.memory }
        ensures low { result.now.low ≡ self.now.state.low }
        ensures brk { result.now.brk ≡ self.now.state.brk }
    {
        let core: &Core<K, S, T, P> = &self.core;
        core.inner.engine.memory()
    }

    /// The points, each with the rescues that are left to it.
    pub fn points_now(&self) -> &Points
        ensures value { result.now ≡ self.now.state.points }
    {
        let core: &Core<K, S, T, P> = &self.core;
        core.inner.engine.points()
    }
}
