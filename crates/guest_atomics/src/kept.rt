ghost use Rattle.std.specs.Prelude.{◌≡◌, ◌-◌, ◌≤◌, ◌++◌, length, drop, replicate, take, IfOk};
ghost use Rattle.guest_words.specs.Start.{empty_hart};
ghost use Rattle.guest_atomics.specs.Idle.{IsEmptyFrom};

use crate::Harts;
use guest_words::{Hart, MemoryWant};
use std::alloc::Global;
use std::marker::Model;

/// Harts that were kept, to be put back. Only those before the empty slots at the end take memory.
#[derive(Drop)]
pub struct KeptHarts {
    items: Vec<Hart>,
    /// The number of empty slots behind these harts.
    empty: usize,
    /// What the harts knew of themselves.
    lent: usize,
    others: bool,
    used: usize,
}

impl Model for KeptHarts {
    ghost use Rattle.std.specs.Prelude.{List, ◌++◌, replicate};
    ghost use Rattle.guest_words.specs.declared.hart.Hart.{Hart};
    ghost use Rattle.guest_words.specs.Start.{empty_hart};

    ghost Value = { List Hart };

    ghost use Rattle.guest_atomics.specs.Idle.{IsKnown};

    ghost view = { λ k. k.items.items ++ replicate k.empty empty_hart };

    ghost invariant = { λ k.
        IsKnown (k.items.items ++ replicate k.empty empty_hart) k.lent k.others k.used };
}

impl Harts {
    /// Keeps the harts. Takes memory for those before the empty slots at the end alone.
    pub fn keep(&self, alloc: Global) -> Result<KeptHarts, MemoryWant>
        ensures ok { IfOk result (λ kept. kept ≡ self.now) }
    {
        let end = self.used.min(self.items.len());
        Ok(KeptHarts {
            items: Vec::from_slice(alloc, &self.items[..end])?,
            empty: self.items.len() - end,
            lent: self.lent,
            others: self.others,
            used: self.used,
        })
    }

    /// Puts kept harts back. Takes no memory.
    pub fn put_back(&mut self, kept: KeptHarts)
        requires count { length kept ≡ length self.old }
        ensures value { self.new ≡ kept }
    {
        let count = kept.items.len();
        let end = self.used.min(self.items.len());
        empty_from(&mut self.items, count, end);
        put_first(&mut self.items, &kept.items);
        self.lent = kept.lent;
        self.others = kept.others;
        self.used = kept.used;
    }
}

/// Makes all slots empty from one on, where those from `end` on are empty already.
fn empty_from(harts: &mut [Hart], from: usize, end: usize)
    requires within { from ≤ length harts.old }
    requires few { end ≤ length harts.old }
    requires behind { IsEmptyFrom end harts.old }
    ensures value { harts.new
        ≡ take from harts.old ++ replicate (length harts.old - from) empty_hart }
{
    for slot in from..end {
        harts[slot] = Hart::EMPTY;
    }
}

/// Puts harts over the first ones.
fn put_first(harts: &mut [Hart], first: &[Hart])
    requires within { length first.now ≤ length harts.old }
    ensures value { harts.new ≡ first.now ++ drop (length first.now) harts.old }
{
    harts[..first.len()].copy_from_slice(first);
}
