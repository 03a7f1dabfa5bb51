//! The end of a run.
ghost use Rattle.std.specs.Prelude.{◌≡◌, [], true, OnErr, OnOk};
ghost use Rattle.edge_ports.specs.Seen.{Seen};
ghost use Rattle.run_history.specs.declared.entry.Entry.{Ended};
ghost use Rattle.run_history.specs.Legal.{IsLegal};
ghost use Rattle.machine_core.specs.Inner.{machine_in, opened_in, whole_in};
ghost use Rattle.machine_core.specs.Machine.{whole};
ghost use Rattle.machine_core.specs.OpenSteps.{abandoned_of};
ghost use Rattle.machine_core.specs.QuietSteps.{EndsBy};

use crate::inner::Inner;
use crate::origin::Origin;
use crate::room::make_room;
use guest_words::{Ending, MemoryWant};
use run_history::Entry;

impl<K: Origin> Inner<K> {
    /// Ends the run: the entries of all open calls become plain ones.
    pub(crate) fn end(&mut self, ending: Ending) -> Result<(), MemoryWant>
        requires legal { IsLegal self.old.live.state (Ended ending) }
        ensures ok { OnOk result ((d : Seen)
            → EndsBy ending (whole_in self.old d) (whole_in self.new d)) }
        ensures plain { OnOk result (self.old.nest.outers ≡ [] → (d : Seen)
            → EndsBy ending (machine_in self.old d) (machine_in self.new d)) }
        ensures hart { self.new.hart ≡ self.old.hart }
        ensures records { self.new.live.state.records ≡ self.old.live.state.records }
        ensures none { OnOk result (self.new.nest.outers ≡ []) }
        ensures notes { OnOk result (self.new.notes ≡ self.old.notes) }
        ensures err { OnErr result (self.new ≡ self.old) }
    {
        make_room(&mut self.calls, &mut self.log, 0)?;
        self.engine.end(ending);
        self.calls.close_to(0);
        self.calls.append(Entry::Ended { ending });
        Ok(())
    }

    /// The entries of all open calls become plain ones, and the machine isn't to go on.
    pub(crate) fn abandon(&mut self)
        ensures value { (d : Seen)
            → machine_in self.new d ≡ abandoned_of (whole (opened_in self.old d)) }
        ensures records { self.new.live.state.records ≡ self.old.live.state.records }
        ensures none { self.new.nest.outers ≡ [] }
    {
        self.calls.close_to(0);
        self.abandoned = true;
    }
}
