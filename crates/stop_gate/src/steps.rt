//! The kinds of step, and what each tells the pass that makes it.
ghost use Rattle.stop_gate.specs.Views.{with_less, another};
ghost use Rattle.stop_gate.specs.Steps.{Enters, Leaves, Raises, Seizes, Lowers, Takes, Gives};

use crate::held::Held;
use crate::view::View;
use atomic_table::{Play, Split};

pub(crate) struct Enter;

impl<C: Held> Play<Option<C>, View<C::Origin>> for Enter {
    ghost then = { Enters C.Held };
}

/// Of a pass that goes back, too.
pub(crate) struct Leave;

impl<C: Held> Play<Option<C>, View<C::Origin>> for Leave {
    ghost then = { Leaves C.Held };
}

pub(crate) struct Raise;

impl<C: Held> Play<Option<C>, View<C::Origin>> for Raise {
    ghost then = { Raises C.Held };
}

pub(crate) struct Seize;

impl<C: Held> Play<Option<C>, View<C::Origin>> for Seize {
    ghost then = { Seizes C.Held };
}

pub(crate) struct Lower;

impl<C: Held> Play<Option<C>, View<C::Origin>> for Lower {
    ghost then = { Lowers C.Held };
}

pub(crate) struct Take;

impl<C: Held> Play<Option<C>, View<C::Origin>> for Take {
    ghost then = { Takes C.Held };
}

pub(crate) struct Give;

impl<C: Held> Play<Option<C>, View<C::Origin>> for Give {
    ghost then = { Gives C.Held };
}

/// A pass with spare makes another.
pub(crate) struct Another;

impl<O> Split<View<O>> for Another {
    ghost left = { with_less };

    ghost right = { another };
}
