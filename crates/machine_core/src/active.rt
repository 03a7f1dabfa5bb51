//! Steps of a machine with calls open.
ghost use Rattle.std.specs.Prelude.{◌≡◌, ◌<◌, length};
ghost use Rattle.guest_words.specs.State.{frames_at};
ghost use Rattle.open_calls.specs.Leading.{LeadsBack};
ghost use Rattle.open_calls.specs.Nest.{lowest, notes_in};
ghost use Rattle.machine_core.specs.Appends.{Appends, StaysBehind};
ghost use Rattle.machine_core.specs.Machine.{whole, GoesOn};
ghost use Rattle.machine_core.specs.Nearer.{GoesNearer};
ghost use Rattle.machine_core.specs.OpenSteps.{abandoned_of, GoesTo};

use crate::machine::{Active, Core, Next, Quiet};
use crate::origin::Origin;
use edge_ports::{Port, Sink, Source};
use undo_log::Note;

impl<K: Origin, S: Source, T: Sink, P: Port> Active<K, S, T, P> {
    /// The hart's next act, or ordinary acts in a row. A fault takes the innermost call back, and
    /// takes no memory.
    pub fn step(self) -> Next<K, S, T, P>
        ensures goes { GoesTo K.state self result }
        ensures nearer { GoesNearer self result }
        ensures behind { StaysBehind self result }
    {
        let Active { mut core } = self;
        let parts: &mut Core<K, S, T, P> = core.as_mut();
        if parts.inner.go(&mut parts.devices).is_err() {
            return Next::Memory(Active { core });
        }
        if parts.inner.is_under() {
            parts.inner.thin();
            return Next::Active(Active { core });
        }
        parts.inner.rest();
        Next::Quiet(Quiet { core })
    }

    /// Lets the run stand as it is, for good.
    pub fn abandon(self) -> Quiet<K, S, T, P>
        ensures value { result ≡ abandoned_of (whole self) }
        ensures appends { Appends (lowest self.nest) result.history }
    {
        let Active { mut core } = self;
        core.as_mut().inner.abandon();
        Quiet { core }
    }

    /// The hart whose calls are open.
    pub fn hart(&self) -> u8
        ensures value { result ≡ self.now.hart }
        ensures goes { GoesOn self.now }
    {
        let core: &Core<K, S, T, P> = &self.core;
        core.inner.hart()
    }

    /// How many frames it has open: one for each open call, at least 1.
    pub fn frames(&self) -> usize
        ensures value { result ≡ length self.now.nest.outers }
        ensures framed { result ≡ frames_at self.now.state self.now.hart }
        ensures some { 0 < result }
    {
        let core: &Core<K, S, T, P> = &self.core;
        core.inner.depth()
    }

    /// The notes of a frame's call up to the entering of the next, the oldest first, the outermost
    /// frame being 0: put back into memory, the innermost frame's first and in each the newest
    /// first, those down to this frame give the memory of the state in which it was entered.
    pub fn notes(&self, frame: usize) -> &[Note]
        requires open { frame < length self.now.nest.outers }
        ensures value { result.now ≡ notes_in frame self.now.notes self.now.nest }
        ensures back { LeadsBack K.state self.now.hart frame self.now.notes self.now.nest
            self.now.state }
    {
        let core: &Core<K, S, T, P> = &self.core;
        core.inner.notes(frame)
    }
}
