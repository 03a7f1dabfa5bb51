//! Stretches of register acts, made outside the turn: what they begin from, and how they come into
//! the history.
ghost use Rattle.std.specs.Prelude.{◌≡◌, ◌<◌, ◌≤◌, Some, None, false, true, length, IfOk};
ghost use Rattle.guest_words.specs.Harts.{is_ready};
ghost use Rattle.hart_step.specs.Registers.{IsTextOf};
ghost use Rattle.machine_core.specs.Appends.{Appends};
ghost use Rattle.machine_core.specs.Commits.{hart_in, CommitsTo, IsStretchFrom};

use crate::commit::Commit;
use crate::machine::{Core, Quiet};
use crate::origin::Origin;
use edge_ports::{Port, Sink, Source};
use guest_words::{Hart, MemoryWant, Points};
use hart_step::Text;

impl<K: Origin, S: Source, T: Sink, P: Port> Quiet<K, S, T, P> {
    /// The hart from which a stretch begins.
    pub fn stretch_base(&self, hart: u8) -> Hart
        requires hart { hart < length K.state.slots }
        ensures value { hart_in self.now.state hart ≡ Some result }
    {
        let core: &Core<K, S, T, P> = &self.core;
        core.inner.hart_in(hart)
    }

    /// The instructions of the executable pages, which stay as they were at the start.
    pub fn text(&self) -> Result<Text, MemoryWant>
        ensures ok { IfOk result (λ text. IsTextOf text K.state.memory) }
    {
        let core: &Core<K, S, T, P> = &self.core;
        core.inner.text()
    }

    /// The points of the start, each with all of its rescues.
    pub fn points(&self) -> Result<Points, MemoryWant>
        ensures ok { IfOk result (λ points. points ≡ K.state.points) }
    {
        let core: &Core<K, S, T, P> = &self.core;
        core.inner.points()
    }

    /// Appends a stretch: so many register acts that lead from the base to `after`. The hart has to
    /// be the base still, in every part, its reservation included, and the steps have to be left.
    ///
    /// After Moved, Short and Memory all is as before.
    pub fn commit(&mut self, hart: u8, base: Hart, after: Hart, count: u32) -> Commit
        requires going { self.old.state.ending ≡ None }
        requires kept { self.old.abandoned ≡ false }
        requires hart { hart < length K.state.slots }
        requires ready { is_ready base.state ≡ true }
        requires count { 1 ≤ count }
        requires stretch { IsStretchFrom K.state base after count }
        ensures commits { CommitsTo hart base after count self.old result self.new }
        ensures appends { Appends self.old.history self.new.history }
    {
        let core: &mut Core<K, S, T, P> = self.core.as_mut();
        core.inner.turn_to(hart);
        core.inner.commit(base, after, count)
    }
}
