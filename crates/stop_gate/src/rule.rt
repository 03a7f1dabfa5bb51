//! The rule of a gate's table: two words, GATE and TURN, and a slot that has the value.
use crate::held::Held;
use crate::view::View;
use atomic_table::TableRule;
use std::marker::PhantomData;
use std::snapshot::Snapshot;

/// What the table is told when it is made.
#[derive(Drop)]
pub struct About<C> {
    pub held: Snapshot<C>,
    pub passes: u64,
}

pub struct Ruled<C> {
    held: PhantomData<C>,
}

impl<C: Held> TableRule<Option<C>, View<C::Origin>, About<C>> for Ruled<C> {
    ghost use Rattle.std.specs.Prelude.{◌-◌};
    ghost use Rattle.stop_gate.specs.GateRule.{GateRule};
    ghost use Rattle.stop_gate.specs.Views.{new_view};

    ghost holds = { λ about. GateRule C.Held (C.origin about.held.value) };

    ghost first = { λ about. new_view (about.passes - 1) (C.origin about.held.value) };
}
