//! The beginning of a call.
ghost use Rattle.std.specs.Prelude.{◌≡◌, OnErr, OnOk};
ghost use Rattle.machine_core.specs.QuietSteps.{stepped_of, HasArrived};
ghost use Rattle.machine_core.specs.Turns.{CanTurn, Begun};

use crate::inner::Inner;
use crate::origin::Origin;
use guest_words::MemoryWant;
use hart_step::NextAct;

impl<K: Origin> Inner<K> {
    /// Opens the call of the point at which the hart stands whose turn it is.
    pub(crate) fn begin(&mut self) -> Result<(), MemoryWant>
        requires can { CanTurn self.old }
        requires arrived { HasArrived (stepped_of self.old.live.state self.old.hart) }
        ensures ok { OnOk result (Begun self.old self.new) }
        ensures records { self.new.live.state.records ≡ self.old.live.state.records }
        ensures err { OnErr result (self.new ≡ self.old) }
    {
        match self.engine.next_act(self.calls.hart()) {
            NextAct::Arrival(point) => self.enter(point),
            _ => unreachable!(),
        }
    }
}
