//! Register acts that are made outside the turn.
ghost use Rattle.std.specs.Prelude.{◌≡◌, ◌<◌, ◌≤◌, false, length, None};
ghost use Rattle.hart_step.specs.Registers.{IsTextOf};
ghost use Rattle.machine_core.specs.Appends.{Appends};
ghost use Rattle.machine_core.specs.Commits.{CommitsTo};

use crate::pace::STRETCH;
use edge_ports::{Port, Sink, Source};
use guest_words::{Hart, HartState, Points};
use hart_step::{Text, run_registers};
use machine_core::{Commit, Origin, Quiet};
use std::marker::{Model, PhantomData};

/// A stretch of a hart: where it began, the hart after it, and how many acts it has, none at first.
#[derive(Drop)]
pub struct Stretch<K: Origin> {
    base: Hart,
    after: Hart,
    count: u32,
    origin: PhantomData<K>,
}

impl<K: Origin> Model for Stretch<K> {
    ghost use Rattle.hart_workers.specs.Stretches.{Made, IsMade};

    ghost Value = { Made };

    ghost view = { λ s. record { base = s.base; after = s.after; count = s.count } };

    ghost invariant = { λ s.
        IsMade K.state (record { base = s.base; after = s.after; count = s.count }) };
}

impl<K: Origin> Stretch<K> {
    /// A stretch of no acts of a hart that can make one: it is ready, and its x0 holds 0.
    pub fn begin<S: Source, T: Sink, P: Port>(
        machine: &Quiet<K, S, T, P>,
        hart: u8,
        text: &Text,
    ) -> Option<Stretch<K>>
        requires hart { hart < length K.state.slots }
        requires text { IsTextOf text.now K.state.memory }
    {
        let base = machine.stretch_base(hart);
        if !matches!(base.state, HartState::Ready) || base.regs[0] != 0 {
            return None;
        }
        Some(Stretch {
            base,
            after: base,
            count: 0,
            origin: PhantomData,
        })
    }

    /// Makes the acts, where none is made yet. Needs no turn.
    pub fn run(&mut self, text: &Text, points: &Points)
        requires text { IsTextOf text.now K.state.memory }
        requires points { points.now ≡ K.state.points }
    {
        if self.count == 0 {
            let (after, count) = run_registers(self.base, text, points, STRETCH);
            self.after = after;
            self.count = count;
        }
    }

    /// How many acts it has.
    pub fn count(&self) -> u32
        ensures value { result ≡ self.now.count }
    {
        self.count
    }

    /// Appends it to the history of the machine, where the hart stands still at its base.
    pub fn commit<S: Source, T: Sink, P: Port>(
        &self,
        machine: &mut Quiet<K, S, T, P>,
        hart: u8,
    ) -> Commit
        requires some { 1 ≤ self.now.count }
        requires going { machine.old.state.ending ≡ None }
        requires kept { machine.old.abandoned ≡ false }
        requires hart { hart < length K.state.slots }
        ensures commits { CommitsTo hart self.now.base self.now.after self.now.count
            machine.old result machine.new }
        ensures appends { Appends machine.old.history machine.new.history }
    {
        machine.commit(hart, self.base, self.after, self.count)
    }
}
