//! Faults while calls are open.
ghost use Rattle.std.specs.Prelude.{◌≡◌, ◌<◌, ◌≤◌, ◌∷◌, false, length, Some};
ghost use Rattle.guest_words.specs.Endings.{is_budget_spent};
ghost use Rattle.edge_ports.specs.Seen.{Seen};
ghost use Rattle.run_history.specs.Ahead.{ahead};
ghost use Rattle.run_history.specs.Faults.{fault_of};
ghost use Rattle.hart_step.specs.Sees.{Sees};
ghost use Rattle.machine_core.specs.Inner.{opened_in, whole_in, IsGoing, IsUnderSame};
ghost use Rattle.machine_core.specs.OpenSteps.{Erases};

use crate::inner::Inner;
use crate::origin::Origin;
use guest_words::{Fault, FaultName};
use hart_step::NextAct;
use open_calls::Taken;
use run_history::Entry;

impl<K: Origin> Inner<K> {
    /// The innermost call is taken back for its fault: one entry has all that happened in it. Takes
    /// no memory.
    pub(crate) fn fail(&mut self, fault: Fault)
        requires called { 0 < length self.old.nest.outers }
        requires left { is_budget_spent self.old.live.state ≡ false }
        requires fault { fault_of self.old.live.state self.old.hart ≡ Some fault }
        ensures erases { (d : Seen)
            → Erases K.state fault (opened_in self.old d) (whole_in self.new d) }
        ensures under { IsUnderSame self.old self.new }
        ensures records { self.new.live.state.records ≡ self.old.live.state.records }
        ensures nearer { ahead self.new.live.state self.old.hart
            < ahead self.old.live.state self.old.hart }
        ensures fewer { length self.new.nest.outers ≤ length self.old.nest.outers }
        ensures few { length self.new.notes ≤ length self.old.notes }
    {
        let hart = self.calls.hart();
        let Taken {
            inside,
            mark,
            point,
            kept,
        } = self.calls.take_back();
        self.engine
            .take_back(hart, kept, &mut self.log, mark, point, fault);
        self.calls.close_to(self.engine.frame_count(hart));
        let entry = Entry::Rescued {
            hart,
            point,
            fault,
            inside: inside.into_inside(),
        };
        self.calls.append(entry);
    }

    /// The fault of this name that the hart is seen to make.
    pub(crate) fn seen_fault(&self, name: FaultName) -> Fault
        requires going { IsGoing self.now }
        requires act { Sees self.now.live.state self.now.hart (NextAct.Fault name) }
        ensures value { Some result ≡ fault_of self.now.live.state self.now.hart }
    {
        let hart = self.calls.hart();
        let Some(now) = self.engine.hart(hart) else {
            unreachable!();
        };
        Fault { name, pc: now.pc }
    }

    /// The fault that the hart is about to make.
    pub(crate) fn fault(&self) -> Option<Fault>
        requires going { IsGoing self.now }
        ensures value { result ≡ fault_of self.now.live.state self.now.hart }
    {
        let hart = self.calls.hart();
        let Some(now) = self.engine.hart(hart) else {
            unreachable!();
        };
        match self.engine.next_act(hart) {
            NextAct::Fault(name) => Some(Fault { name, pc: now.pc }),
            _ => None,
        }
    }
}
