ghost use Rattle.std.specs.Prelude.{◌≡◌, ◌≤◌, ◌<◌, ◌+◌, ◌++◌, true, false, IfOk, length};
ghost use Rattle.guest_words.specs.HartAct.{hart_act};
ghost use Rattle.guest_memory.specs.Noting.{Notes};
ghost use Rattle.hart_step.specs.InARow.{lone, IsRow};
ghost use Rattle.hart_step.specs.InPlace.{did_of, HasZero};

use crate::known::{Known, blank_table};
use crate::quantum;
use crate::quantum::Ran;
use guest_memory::Memory;
use guest_pages::Recent;
use guest_words::{Frame, Hart, MemoryWant, Points};
use std::alloc::Global;
use std::marker::Model;
use undo_log::Log;

/// What a hart acts on: the memory and the points. It keeps the instructions that were decoded.
#[derive(Drop)]
pub struct Guest {
    pub(crate) memory: Memory,
    pub(crate) points: Points,
    pub(crate) recent: Recent,
    pub(crate) table: Vec<Known>,
}

impl Model for Guest {
    ghost use Rattle.std.specs.Coded.{codes, coded_ℕ};
    ghost use Rattle.std.specs.FinMap as map;
    ghost use Rattle.std.specs.Ordering.{nat_cmp};
    ghost use Rattle.guest_words.specs.contracts.image.Cell as cell;
    ghost use Rattle.hart_step.specs.Ground.{Ground};

    ghost Value = { Ground };

    ghost coded = { Prim.hlevel (codes, map.code {R = nat_cmp} coded_ℕ cell.the_row.coded) };

    ghost use Rattle.hart_step.specs.Table.{IsTable};

    ghost view = { λ g. record { memory = g.memory; points = g.points } };

    ghost invariant = { λ g. IsTable g.memory.space g.points g.table.items };
}

impl Guest {
    /// Knows no instruction yet.
    pub fn new(alloc: Global, memory: Memory, points: Points) -> Result<Guest, MemoryWant>
        ensures ok { IfOk result (λ guest. guest ≡ record { memory = memory; points = points }) }
    {
        Ok(Guest {
            memory,
            points,
            recent: Recent::new(),
            table: blank_table(alloc)?,
        })
    }

    /// Acts of a hart with so many frames open, at most so many, as long as each carries out an
    /// instruction and the top frame, if one is handed in, stays open. Where `noted`, the log gets
    /// a note of each store, and has room for them. Takes no memory.
    pub fn run(
        &mut self,
        hart: &mut Hart,
        log: &mut Log,
        frames: usize,
        top: &Option<Frame>,
        most: u32,
        noted: bool,
    ) -> Ran
        requires zero { HasZero hart.old }
        requires room { noted ≡ true → most ≤ log.old.spare }
        ensures within { result.count ≤ most }
        ensures row { IsRow self.old.points frames top.now
            (lone hart.old self.old.memory) (lone hart.new self.new.memory)
            result.count result.closed }
        ensures notes { Notes noted log.old.notes log.new.notes self.old.memory self.new.memory }
        ensures stops { result.closed ≡ false → result.count < most
            → result.did ≡ did_of (hart_act self.new.memory.space self.old.points frames hart.new) }
        ensures few { length log.new.notes ≤ length log.old.notes + result.count }
        ensures spare { log.old.spare ≤ log.new.spare + result.count }
        ensures points { self.new.points ≡ self.old.points }
        ensures zero { HasZero hart.new }
    {
        quantum::run(
            hart,
            &mut self.memory,
            &mut self.recent,
            log,
            &self.points,
            frames,
            top,
            self.table.as_mut_slice(),
            most,
            noted,
        )
    }
}
