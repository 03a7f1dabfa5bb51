//! What can be read of a run, and what changes it between steps. No call here takes memory but for
//! `start`, `text` and `points`.
ghost use Rattle.std.specs.Prelude.{◌≡◌, ◌≤◌, ◌<◌, [], false, true, length, None, Some, IfOk, IsTrue};
ghost use Rattle.guest_words.specs.declared.limits.TheConstants.{BUDGET, HARTS};
ghost use Rattle.guest_words.specs.Image.{IsLoadList};
ghost use Rattle.guest_words.specs.Start.{start_of};
ghost use Rattle.edge_ports.specs.Seen.{Seen};
ghost use Rattle.hart_step.specs.Registers.{IsTextOf};
ghost use Rattle.open_calls.specs.Leading.{LeadsBack};
ghost use Rattle.open_calls.specs.Nest.{notes_in};
ghost use Rattle.run_history.specs.After.{state_after};
ghost use Rattle.run_history.specs.Counts.{records_of_all};
ghost use Rattle.run_history.specs.Run.{IsRun};
ghost use Rattle.machine_core.specs.Commits.{hart_in};
ghost use Rattle.machine_core.specs.Inner.{machine_in, IsGoing};
ghost use Rattle.machine_core.specs.Machine.{IsAsTold, IsStart};
ghost use Rattle.run_history.specs.Quiet.{is_quiet};

use crate::inner::Inner;
use crate::origin::Origin;
use crate::start_points::StartPoints;
use crate::thinning::MANY;
use guest_words::{Ending, Hart, Image, MemoryWant, Points};
use hart_step::{Engine, Text};
use open_calls::Calls;
use run_history::History;
use std::alloc::Global;
use std::marker::PhantomData;
use undo_log::{Log, Note};

impl<K: Origin> Inner<K> {
    /// The start of a run.
    pub(crate) fn start(
        alloc: Global,
        image: &Image,
        points: &Points,
        harts: u8,
        ports: u64,
        budget: u64,
    ) -> Result<Inner<K>, MemoryWant>
        requires image { IsLoadList image.now.loads }
        requires some { 1 ≤ harts }
        requires most { harts ≤ HARTS }
        requires budget { budget ≤ BUDGET }
        requires state { K.state ≡ start_of image.now points.now harts ports budget }
        requires starts { IsStart K.state K.devices }
        ensures ok { IfOk result (λ inner. inner ≡ record {
          hart = 0;
          nest = record { outers = []; entries = [] };
          notes = [];
          live = record { state = K.state; spare = 0 };
          abandoned = false;
        }) }
    {
        Ok(Inner {
            engine: Engine::start(alloc, image, points, harts, ports, budget)?,
            calls: Calls::none(alloc, 0)?,
            log: Log::new(alloc),
            thin_at: MANY,
            abandoned: false,
            start_points: StartPoints::of(alloc, points)?,
            alloc,
            origin: PhantomData,
        })
    }

    /// It is another hart's turn.
    pub(crate) fn turn_to(&mut self, hart: u8)
        requires none { self.old.nest.outers ≡ [] }
        ensures same { self.new ≡ record self.old { hart = hart } }
        ensures told { (d : Seen) → IsAsTold K.state (machine_in self.old d) }
    {
        self.calls.turn_to(hart);
    }

    /// Forgets the notes of what can't be taken back any more.
    pub(crate) fn rest(&mut self)
        requires none { self.old.nest.outers ≡ [] }
        ensures same { self.new ≡ record self.old { notes = [] } }
    {
        self.log.clear();
        self.thin_at = MANY;
    }

    /// Whether a call is open.
    pub(crate) fn is_under(&self) -> bool
        ensures open { IsTrue result → 0 < length self.now.nest.outers }
        ensures going { IsTrue result → IsGoing self.now }
        ensures none { result ≡ false → self.now.nest.outers ≡ [] }
        ensures calm { self.now.nest.outers ≡ [] → self.now.live.state.ending ≡ None
            → self.now.abandoned ≡ false → is_quiet self.now.live.state ≡ true }
    {
        self.calls.depth() > 0
    }

    /// The hart whose calls are open, or whose turn it is.
    pub(crate) fn hart(&self) -> u8
        ensures value { result ≡ self.now.hart }
        ensures going { 0 < length self.now.nest.outers → IsGoing self.now }
    {
        self.calls.hart()
    }

    /// The hart in a slot.
    pub(crate) fn hart_in(&self, slot: u8) -> Hart
        requires slot { slot < length K.state.slots }
        ensures value { hart_in self.now.live.state slot ≡ Some result }
    {
        match self.engine.hart(slot) {
            Some(hart) => *hart,
            None => unreachable!(),
        }
    }

    /// The instructions of the executable pages, which stay as they were at the start.
    pub(crate) fn text(&self) -> Result<Text, MemoryWant>
        ensures ok { IfOk result (λ text. IsTextOf text K.state.memory) }
    {
        self.engine.text(self.alloc)
    }

    /// The points of the start.
    pub(crate) fn points(&self) -> Result<Points, MemoryWant>
        ensures ok { IfOk result (λ points. points ≡ K.state.points) }
    {
        self.start_points.copy(self.alloc)
    }

    /// How many calls are open.
    pub(crate) fn depth(&self) -> usize
        ensures value { result ≡ length self.now.nest.outers }
        ensures going { 0 < length self.now.nest.outers → IsGoing self.now }
    {
        self.calls.depth()
    }

    /// The notes of a call, the outermost being 0, up to the entering of the next.
    pub(crate) fn notes(&self, call: usize) -> &[Note]
        requires open { call < length self.now.nest.outers }
        ensures value { result.now ≡ notes_in call self.now.notes self.now.nest }
        ensures back { LeadsBack K.state self.now.hart call self.now.notes self.now.nest
            self.now.live.state }
    {
        self.calls.notes(call, &self.log)
    }

    /// How the run has ended, if it has.
    pub(crate) fn ending(&self) -> Option<Ending>
        ensures value { result ≡ self.now.live.state.ending }
        ensures told { self.now.nest.outers ≡ []
            → (d : Seen) → IsAsTold K.state (machine_in self.now d) }
    {
        self.engine.ending()
    }

    /// The history of a run with no call open, and the points, each with what is left of its
    /// rescues.
    pub(crate) fn into_parts(self) -> (History, Points)
        requires none { self.nest.outers ≡ [] }
        ensures history { result.0.entries ≡ self.nest.entries }
        ensures points { result.1 ≡ self.live.state.points }
        ensures run { IsRun K.state result.0.entries }
        ensures reaches { self.live.state ≡ state_after K.state result.0.entries }
        ensures records { records_of_all result.0.entries ≡ self.live.state.records }
    {
        let Inner { engine, calls, .. } = self;
        (calls.flatten(), engine.into_points())
    }
}
