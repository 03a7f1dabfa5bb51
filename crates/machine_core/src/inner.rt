use crate::origin::Origin;
use crate::start_points::StartPoints;
use hart_step::Engine;
use open_calls::Calls;
use std::alloc::Global;
use std::marker::{Model, PhantomData};
use undo_log::Log;

/// The run of a machine, whether calls are open or none is: its state, and its history with what is
/// kept of the open calls.
#[derive(Drop)]
pub struct Inner<K: Origin> {
    pub(crate) engine: Engine,
    pub(crate) calls: Calls,
    /// What the acts in open calls overwrote, for all of them.
    pub(crate) log: Log,
    /// With so many notes in the innermost call those go that nothing is put back by.
    pub(crate) thin_at: u64,
    pub(crate) abandoned: bool,
    pub(crate) start_points: StartPoints<K>,
    pub(crate) alloc: Global,
    pub(crate) origin: PhantomData<K>,
}

impl<K: Origin> Model for Inner<K> {
    ghost use Rattle.std.specs.Coded.{codes, coded_ℕ};
    ghost use Rattle.std.specs.FinMap as map;
    ghost use Rattle.std.specs.Ordering.{nat_cmp};
    ghost use Rattle.guest_words.specs.contracts.image.Cell as cell;
    ghost use Rattle.run_history.specs.contracts.entry.Entry as entry;
    ghost use Rattle.checkpoints.specs.contracts.checkpoint.Checkpoint as kept;
    ghost use Rattle.undo_log.specs.contracts.note.Note as note;
    ghost use Rattle.machine_core.specs.Inner.{inner_of, Holds, Inner};

    ghost Value = { Inner };

    ghost coded = { Prim.hlevel (
      codes,
      map.code {R = nat_cmp} coded_ℕ cell.the_row.coded,
      entry.the_row.coded,
      kept.the_row.coded,
      note.the_row.coded,
    ) };

    ghost view = { λ m. inner_of m.engine m.calls m.log m.abandoned };

    ghost invariant = { λ m. Holds K.state K.devices
        (inner_of m.engine m.calls m.log m.abandoned) m.log };
}
