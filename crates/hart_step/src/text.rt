ghost use Rattle.std.specs.Prelude.{◌≡◌, ℕ, ◌+◌, ◌*◌, ◌%◌, ◌^◌, ◌<◌, ◌≤◌, true, length, slice_index_or, None, IfOk, IfSome};
ghost use Rattle.std.specs.FinMap as map;
ghost use Rattle.std.specs.List.{All, list_any};
ghost use Rattle.guest_words.specs.HartAct;
ghost use Rattle.guest_words.specs.Image.{IsLoadList};
ghost use Rattle.guest_words.specs.Instructions.{NamesRegisters};
ghost use Rattle.guest_words.specs.Space.{has_right};
ghost use Rattle.guest_words.specs.Start.{memory_of};
ghost use Rattle.hart_step.specs.Registers.{inst_in, inst_of, is_in, IsTextOf, Tells};

use crate::engine::Engine;
use crate::look::look;
use crate::text_pages::{text_end, text_from};
use guest_memory::Memory;
use guest_words::limits::PAGE;
use guest_words::{Image, Inst, MemoryWant};
use std::alloc::Global;
use std::marker::Model;

/// The instructions of so many words from an address on.
#[derive(Drop)]
pub(crate) struct Words {
    from: u64,
    insts: Vec<Option<Inst>>,
}

impl Model for Words {
    ghost use Rattle.hart_step.specs.Registers.{Stretch};

    ghost Value = { Stretch };

    ghost view = { λ w. record { from = w.from; insts = w.insts.items } };
}

impl Words {
    // The words from where a page begins up to where another does.
    fn of(alloc: Global, memory: &Memory, from: u64, end: u64) -> Result<Words, MemoryWant>
        requires from { from % PAGE ≡ 0 }
        requires end { end % PAGE ≡ 0 }
        requires upto { from ≤ end }
        ensures tells { IfOk result (Tells memory.now.space) }
        ensures whole { IfOk result (λ words. (pc : ℕ)
            → from ≤ pc
            → pc < end
            → is_in pc words ≡ true) }
    {
        let insts = insts_from(alloc, memory, from, (end - from) / 4)?;
        Ok(Words { from, insts })
    }

    #[inline(always)]
    fn holds(&self, pc: u64) -> bool
        ensures value { result ≡ is_in pc self.now }
    {
        pc >= self.from && (pc - self.from) / 4 < self.insts.len() as u64
    }

    #[inline(always)]
    fn inst_at(&self, pc: u64) -> Option<Inst>
        ensures value { result ≡ inst_of pc self.now }
    {
        let at = (pc.saturating_sub(self.from) / 4) as usize;
        if pc % 4 == 0 && at < self.insts.len() {
            self.insts[at]
        } else {
            None
        }
    }
}

// The instructions of so many words from an address on.
fn insts_from(
    alloc: Global,
    memory: &Memory,
    from: u64,
    count: u64,
) -> Result<Vec<Option<Inst>>, MemoryWant>
    requires within { from + 4 * count < 2 ^ 64 }
    ensures count { IfOk result (λ insts. length insts.items ≡ count) }
    ensures insts { IfOk result (λ insts. (k : ℕ)
        → k < count
        → slice_index_or insts.items k None ≡ HartAct.inst_at memory.now.space (from + 4 * k)) }
{
    let mut insts = Vec::new(alloc);
    for k in 0..count {
        let found = inst_at(memory, from + 4 * k);
        insts.push(found)?;
    }
    Ok(insts)
}

pub(crate) fn inst_at(memory: &Memory, pc: u64) -> Option<Inst>
    ensures value { result ≡ HartAct.inst_at memory.now.space pc }
{
    match look(memory, pc) {
        Ok(inst) => Some(inst),
        Err(_) => None,
    }
}

// The words of all pages that may be executed, those of pages side by side as one.
fn words_in(alloc: Global, memory: &Memory) -> Result<Vec<Words>, MemoryWant>
    ensures tells { IfOk result (λ words. All (Tells memory.now.space) words.items) }
    ensures has { IfOk result (λ words. (pc : ℕ)
        → has_right (λ rights. rights.exec) (map.get memory.now.space pc) ≡ true
        → list_any (is_in pc) words.items ≡ true) }
{
    let mut words = Vec::new(alloc);
    let mut at = 0;
    while let Some(from) = text_from(memory, at) {
        let end = text_end(memory, from);
        words.push(Words::of(alloc, memory, from, end)?)?;
        at = end;
    }
    Ok(words)
}

/// The instructions of a run, which no act ever changes.
#[derive(Drop)]
pub struct Text {
    words: Vec<Words>,
}

impl Model for Text {
    ghost use Rattle.std.specs.Prelude.{List};
    ghost use Rattle.hart_step.specs.Registers.{IsText, Stretch};

    ghost Value = { List Stretch };

    ghost view = { λ t. t.words.items };

    ghost invariant = { λ t. IsText t.words.items };
}

impl Text {
    /// The instructions in the executable pages of an accepted image: what can be fetched at each
    /// address when a run of it starts, and ever after.
    pub fn of(alloc: Global, image: &Image) -> Result<Text, MemoryWant>
        requires image { IsLoadList image.now.loads }
        ensures ok { IfOk result (λ text. IsTextOf text (memory_of image.now.loads)) }
    {
        let memory = Memory::of(alloc, image)?;
        Text::in_memory(alloc, &memory)
    }

    // The instructions in the executable pages of memory.
    fn in_memory(alloc: Global, memory: &Memory) -> Result<Text, MemoryWant>
        ensures ok { IfOk result (λ text. IsTextOf text memory.now.space) }
    {
        let words = words_in(alloc, memory)?;
        Ok(Text { words })
    }

    /// The instruction at an address; None where none can be fetched.
    #[inline(always)]
    pub fn inst_at(&self, pc: u64) -> Option<Inst>
        ensures value { result ≡ inst_in self.now pc }
        ensures registers { IfSome result NamesRegisters }
    {
        let _ = &self.words;
        self.found_at(pc)
    }

    #[inline(always)]
    fn found_at(&self, pc: u64) -> Option<Inst>
        ensures value { result ≡ inst_in self.now pc }
    {
        self.words
            .iter()
            .find(|words| words.holds(pc))
            .map(|words| words.inst_at(pc))
            .unwrap_or(None)
    }
}

impl Engine {
    /// The instructions in the executable pages of a running machine: what can be fetched at each
    /// address.
    pub fn text(&self, alloc: Global) -> Result<Text, MemoryWant>
        ensures ok { IfOk result (λ text. IsTextOf text self.now.state.memory) }
    {
        Text::in_memory(alloc, self.memory())
    }
}
