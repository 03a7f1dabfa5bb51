//! The entering of a point.
ghost use Rattle.std.specs.Prelude.{◌≡◌, ◌+◌, ◌<◌, false, length, OnErr, OnOk};
ghost use Rattle.guest_words.specs.Act.{act_of, Arrival};
ghost use Rattle.guest_words.specs.Endings.{is_budget_spent};
ghost use Rattle.edge_ports.specs.Seen.{Seen};
ghost use Rattle.run_history.specs.Ahead.{ahead};
ghost use Rattle.machine_core.specs.Inner.{whole_in, IsGoing, IsUnderSame};
ghost use Rattle.machine_core.specs.Notes.{IsUnnoted};
ghost use Rattle.machine_core.specs.OpenSteps.{EntersAt};

use crate::inner::Inner;
use crate::origin::Origin;
use crate::room::make_room;
use guest_words::{MemoryWant, PointRef};

impl<K: Origin> Inner<K> {
    /// Opens the call of the point at which the hart stands, within those that are open. Takes
    /// memory for copies of the harts and of the waiting list.
    pub(crate) fn enter(&mut self, point: PointRef) -> Result<(), MemoryWant>
        requires going { IsGoing self.old }
        requires left { is_budget_spent self.old.live.state ≡ false }
        requires arrives { act_of self.old.live.state self.old.hart ≡ Arrival point }
        ensures ok { OnOk result ((d : Seen)
            → EntersAt self.old.hart point (whole_in self.old d) (whole_in self.new d)) }
        ensures under { IsUnderSame self.old self.new }
        ensures records { self.new.live.state.records ≡ self.old.live.state.records }
        ensures nearer { OnOk result (ahead self.new.live.state self.old.hart
            < ahead self.old.live.state self.old.hart) }
        ensures going { OnOk result (IsGoing self.new) }
        ensures deeper { OnOk result
            (length self.new.nest.outers ≡ length self.old.nest.outers + 1) }
        ensures notes { OnOk result (self.new.notes ≡ self.old.notes) }
        ensures none { OnOk result (IsUnnoted self.new.nest self.new.notes) }
        ensures err { OnErr result (self.new ≡ self.old) }
    {
        let hart = self.calls.hart();
        make_room(&mut self.calls, &mut self.log, 0)?;
        let list = self.calls.next_list(self.alloc)?;
        let kept = self.engine.checkpoint(self.alloc, self.calls.length())?;
        self.engine.enter(hart, point)?;
        let mark = self.log.length();
        self.calls.open(point, kept, mark, list);
        Ok(())
    }
}
