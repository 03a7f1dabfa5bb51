//! The gate.
use crate::held::Held;
use crate::rule::{About, Ruled};
use crate::view::View;
use atomic_table::Table;
use std::alloc::Global;
use std::marker::Model;

/// One value, and the passes by which threads take it in turn. No call takes a handle, so none can
/// wait or hold a lock: each but `new` and `close` is one atomic step, and answers at once.
#[derive(Drop)]
pub struct Gate<C: Held> {
    pub(crate) table: Table<Option<C>, View<C::Origin>, About<C>, Ruled<C>, Global>,
}

impl<C: Held> Model for Gate<C> {
    ghost use Rattle.stop_gate.specs.Passes.{Identity, identity, IsGateTable};

    ghost Value = { Identity C.Origin };

    ghost view = { λ g. identity g.table.shared.table_id (C.origin g.table.shared.key.held.value) };

    ghost invariant = { λ g. IsGateTable g.table.shared.table_id };
}
