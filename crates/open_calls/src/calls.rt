ghost use Rattle.std.specs.Prelude.{◌≡◌, ◌+◌, ◌<◌, ◌≤◌, ◌++◌, [], ◌∷◌, length, OnOk, IfOk};
ghost use Rattle.guest_words.specs.declared.limits.TheConstants.{FRAMES};
ghost use Rattle.run_history.specs.LastEntry.{with_acts};
ghost use Rattle.open_calls.specs.Nest.{closed_one, closed_to, flat, lowest, mark_in, notes_in, opened};
ghost use Rattle.open_calls.specs.Rooms.{IsFresh};
ghost use Rattle.open_calls.specs.declared.list.TheConstants.{ENTRIES};

use crate::list;
use crate::outer::Outer;
use crate::room::{make_in, refill};
use crate::taken::Taken;
use checkpoints::Checkpoint;
use guest_words::{MemoryWant, PointRef, limits};
use run_history::{Entry, History};
use std::alloc::Global;
use std::marker::Model;
use std::mem::replace;
use undo_log::{Log, Note};

/// A refill makes room for at most so many entries.
const MOST_ENTRIES: usize = 64;

/// The calls that a hart has open, and the history: what has been since the innermost call was
/// entered, and what was before each. What was overwritten is in the machine's log.
#[derive(Drop)]
pub struct Calls {
    hart: u8,
    top: History,
    /// The outermost first; room for as many as a hart can have open.
    outers: Vec<Outer>,
    /// So many entries more have room, whatever closes.
    acts: usize,
    /// No entries: the list of a short call that has closed, whose room the next call takes. That
    /// of a long one would hold its memory for nothing.
    free: History,
}

impl Model for Calls {
    ghost use Rattle.std.specs.Prelude.{◌≡◌, []};
    ghost use Rattle.std.specs.Coded.{codes};
    ghost use Rattle.run_history.specs.contracts.entry.Entry as entry;
    ghost use Rattle.checkpoints.specs.contracts.checkpoint.Checkpoint as kept;
    ghost use Rattle.open_calls.specs.Nest.{Stack};
    ghost use Rattle.open_calls.specs.Rooms.{nest_of, turned, HasPlaces, Rooms};

    ghost Value = { Stack };

    ghost coded = { Prim.hlevel (codes, entry.the_row.coded, kept.the_row.coded) };

    ghost view = { λ c. record {
      hart = c.hart;
      nest = nest_of c.top c.outers.items;
      acts = c.acts;
    } };

    ghost invariant = { λ c. Rooms c.acts c.top (turned c.outers.items)
        × HasPlaces c.outers
        × (c.free.entries ≡ []) };
}

impl Calls {
    /// No call, and no history.
    pub fn none(alloc: Global, hart: u8) -> Result<Calls, MemoryWant>
        ensures nest { IfOk result (λ calls.
            calls.nest ≡ record { outers = []; entries = [] }) }
        ensures hart { IfOk result (λ calls. calls.hart ≡ hart) }
    {
        let top = list::fresh(list::empty(alloc))?;
        let outers = Vec::with_capacity(alloc, limits::FRAMES)?;
        Ok(Calls {
            hart,
            top,
            outers,
            acts: 0,
            free: list::empty(alloc),
        })
    }

    /// They are another hart's.
    pub fn turn_to(&mut self, hart: u8)
        ensures same { self.new ≡ record self.old { hart = hart } }
    {
        self.hart = hart;
    }

    /// Whose calls they are.
    pub fn hart(&self) -> u8
        ensures value { result ≡ self.now.hart }
    {
        self.hart
    }

    /// How many are open.
    pub fn depth(&self) -> usize
        ensures value { result ≡ length self.now.nest.outers }
    {
        self.outers.len()
    }

    /// The entries since the innermost call was entered; with none open, the whole history.
    pub fn history(&self) -> &History
        ensures entries { result.now.entries ≡ self.now.nest.entries }
    {
        &self.top
    }

    /// The number of entries before the outermost call; with none open, of the whole history.
    pub fn length(&self) -> u64
        ensures value { result ≡ length (lowest self.now.nest) }
    {
        match self.outers.first() {
            Some(outer) => outer.entries.items().len() as u64,
            None => self.top.items().len() as u64,
        }
    }

    /// The notes of a call in the machine's log, the outermost being 0, up to the entering of the
    /// next.
    pub fn notes<'a>(&self, frame: usize, log: &'a Log) -> &'a [Note]
        requires open { frame < length self.now.nest.outers }
        ensures value { result.now ≡ notes_in frame log.now.notes self.now.nest }
    {
        let Some(outer) = self.outers.get(frame) else {
            unreachable!();
        };
        match self.outers.get(frame + 1) {
            Some(next) => log.between(outer.mark, next.mark),
            None => log.between(outer.mark, log.length()),
        }
    }

    /// How many notes the machine's log had at the entering of the innermost call; 0 with none.
    pub fn mark(&self) -> u64
        ensures value { result ≡ mark_in self.now.nest }
    {
        match self.outers.last() {
            Some(outer) => outer.mark,
            None => 0,
        }
    }

    /// Makes room for an entry.
    pub fn make_room(&mut self) -> Result<(), MemoryWant>
        ensures nest { self.new.nest ≡ self.old.nest }
        ensures hart { self.new.hart ≡ self.old.hart }
        ensures acts { OnOk result (0 < self.new.acts) }
    {
        if self.acts > 0 {
            return Ok(());
        }
        // As much again as there is, so that a long call is seldom refilled.
        let entries = self.top.items().len().min(MOST_ENTRIES);
        self.refill(entries.max(list::ENTRIES))
    }

    // Apart, so that the test for room is all that most steps pay.
    #[inline(never)]
    fn refill(&mut self, entries: usize) -> Result<(), MemoryWant>
        ensures nest { self.new.nest ≡ self.old.nest }
        ensures hart { self.new.hart ≡ self.old.hart }
        ensures acts { OnOk result (self.new.acts ≡ entries) }
    {
        let around = make_in(&mut self.top, entries)?;
        refill(self.outers.as_mut_slice(), around)?;
        self.acts = entries;
        Ok(())
    }

    /// A list for the entries of a further call. Takes no memory where a short call has closed
    /// since the last one.
    pub fn next_list(&mut self, alloc: Global) -> Result<History, MemoryWant>
        ensures same { self.new ≡ self.old }
        ensures fresh { IfOk result (λ list. IsFresh list) }
    {
        let free = replace(&mut self.free, list::empty(alloc));
        list::fresh(free)
    }

    /// A call of a point opens, where the machine's log has so many notes.
    #[inline(always)]
    pub fn open(&mut self, point: PointRef, kept: Checkpoint, mark: u64, list: History)
        requires acts { 0 < self.old.acts }
        requires few { length self.old.nest.outers < FRAMES }
        requires fresh { IsFresh list }
        ensures nest { self.new.nest ≡ opened point kept mark self.old.nest }
        ensures hart { self.new.hart ≡ self.old.hart }
    {
        let entries = replace(&mut self.top, list);
        self.outers.push_reserved(Outer {
            entries,
            mark,
            point,
            kept,
        });
        self.acts = one_less(self.acts);
    }

    /// The innermost call closes: its entries go behind those of what encloses it.
    fn close(&mut self)
        requires open { 0 < length self.old.nest.outers }
        ensures same { self.new ≡ record self.old {
          nest = closed_one self.old.hart self.old.nest;
        } }
    {
        match self.outers.pop() {
            Some(outer) => {
                let Outer { entries, point, .. } = outer;
                let mut inner = replace(&mut self.top, entries);
                let is_short = inner.items().len() <= list::ENTRIES;
                list::join(&mut self.top, &mut inner, self.hart, point);
                list::keep_where(&mut self.free, inner, is_short);
            }
            None => {}
        }
    }

    /// Calls close, the innermost first, until so many are open. Takes no memory.
    pub fn close_to(&mut self, keep: usize)
        ensures same { self.new ≡ record self.old {
          nest = closed_to self.old.hart keep self.old.nest;
        } }
    {
        while self.depth() > keep {
            self.close();
        }
    }

    /// So many ordinary acts of the hart in a row go behind the entries. Takes no memory.
    pub fn put_run(&mut self, count: u32)
        requires acts { 0 < self.old.acts }
        requires some { 1 ≤ count }
        ensures nest { self.new.nest ≡ record self.old.nest {
          entries = with_acts self.old.hart count self.old.nest.entries;
        } }
        ensures hart { self.new.hart ≡ self.old.hart }
        ensures acts { self.old.acts ≤ self.new.acts + 1 }
    {
        self.acts -= 1;
        self.top.put_acts(self.hart, count);
    }

    /// An entry goes behind the entries. Takes no memory.
    pub fn append(&mut self, entry: Entry)
        requires acts { 0 < self.old.acts }
        ensures nest { self.new.nest ≡ record self.old.nest {
          entries = self.old.nest.entries ++ entry ∷ [];
        } }
        ensures hart { self.new.hart ≡ self.old.hart }
        ensures acts { self.old.acts ≤ self.new.acts + 1 }
    {
        self.acts -= 1;
        self.top.push(entry);
    }

    /// The innermost call goes, and what encloses it has room for an entry. Takes no memory.
    pub fn take_back(&mut self) -> Taken
        requires open { 0 < length self.old.nest.outers }
        ensures was { self.old.nest ≡ record {
          outers = record {
            entries = self.new.nest.entries;
            mark = result.mark;
            point = result.point;
            kept = result.kept;
          } ∷ self.new.nest.outers;
          entries = result.inside.entries;
        } }
        ensures hart { self.new.hart ≡ self.old.hart }
        ensures acts { 0 < self.new.acts }
    {
        let Some(outer) = self.outers.pop() else {
            unreachable!();
        };
        let Outer {
            entries,
            mark,
            point,
            kept,
        } = outer;
        let inside = replace(&mut self.top, entries);
        self.acts = with_those_of_call(self.acts, inside.items().len());
        Taken {
            inside,
            mark,
            point,
            kept,
        }
    }

    /// The entries of all calls as plain ones, with room for the ending. Takes no memory.
    pub fn flatten(self) -> History
        ensures entries { result.entries ≡ flat self.hart self.nest }
        ensures room { 0 < result.spare }
    {
        let mut calls = self;
        calls.close_to(0);
        calls.into_top()
    }

    fn into_top(self) -> History
        ensures entries { result.entries ≡ self.nest.entries }
        ensures room { 0 < result.spare }
    {
        self.top
    }
}

// What encloses a call has room for one entry more than the call, for the entering: so many entries
// have room in a further call.
fn one_less(acts: usize) -> usize
    requires some { 0 < acts }
    ensures less { result + 1 ≤ acts }
    ensures few { result ≤ ENTRIES }
{
    (acts - 1).min(list::ENTRIES)
}

// Where the call is taken back, what encloses it has the room again that the call used, and that of
// the entering.
fn with_those_of_call(acts: usize, entries: usize) -> usize
    ensures some { 0 < result }
    ensures within { result ≤ acts + entries + 1 }
{
    acts.saturating_add(entries).max(1)
}
