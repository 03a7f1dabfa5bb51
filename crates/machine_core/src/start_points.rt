ghost use Rattle.std.specs.Prelude.{◌≡◌, IfOk};

use crate::origin::Origin;
use guest_words::{MemoryWant, Points};
use std::alloc::Global;
use std::marker::{Model, PhantomData};

/// The points as a run of the origin begins with them, each with all of its rescues.
#[derive(Drop)]
pub struct StartPoints<K: Origin> {
    points: Points,
    origin: PhantomData<K>,
}

impl<K: Origin> Model for StartPoints<K> {
    ghost use Rattle.std.specs.Prelude.{◌≡◌, List};
    ghost use Rattle.guest_words.specs.declared.point.Point.{Point};

    ghost Value = { List Point };

    ghost view = { λ p. p.points };

    ghost invariant = { λ p. p.points ≡ K.state.points };
}

impl<K: Origin> StartPoints<K> {
    pub(crate) fn of(alloc: Global, points: &Points) -> Result<StartPoints<K>, MemoryWant>
        requires start { points.now ≡ K.state.points }
    {
        Ok(StartPoints {
            points: points.copy(alloc)?,
            origin: PhantomData,
        })
    }

    /// An equal list.
    pub(crate) fn copy(&self, alloc: Global) -> Result<Points, MemoryWant>
        ensures ok { IfOk result (λ points. points ≡ K.state.points) }
    {
        self.points.copy(alloc)
    }
}
