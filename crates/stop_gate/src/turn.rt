//! The turn: how a pass takes the value and gives it back.
ghost use Rattle.std.specs.Prelude.{◌≡◌, ◌≤◌, IsTrue};
ghost use Rattle.stop_gate.specs.Words.{length_in, over_bit, IsOut, IsHome, as_out, turn_of};
ghost use Rattle.stop_gate.specs.Passes.{IsOf, IsNext, KnowsTheSame, StepsOnTurn, GoesOn};
ghost use Rattle.stop_gate.specs.Answers.{taken, taken_at, IfTaken, IfHeld};
ghost use Rattle.stop_gate.specs.GateRule.{Tells};
ghost use Rattle.stop_gate.specs.Steps.{Stays, MovesOut, MovesIn};

use crate::answers::Take;
use crate::gate::Gate;
use crate::held::Held;
use crate::passes::{Alone, AloneTurning, Inside, Turning};
use crate::steps;
use crate::view::Place;
use crate::word::{TURN, word_of};

impl<C: Held> Gate<C> {
    /// Takes the value: a `fetch_or` of 1 on TURN, and then the value moves out of the slot. Where
    /// TURN was odd, another pass has it.
    pub fn try_take(&self, pass: Inside<C>) -> Take<C>
        requires gate { IsOf self.now pass }
        ensures gate { IsOf self.now (taken result) }

        // One step, which makes TURN odd. The value moves out of the slot, or is out already.
        ensures step { IfTaken result (λ p held. StepsOnTurn C.Held as_out (MovesOut held) pass p) }
        ensures look { IfHeld result (λ word p. StepsOnTurn C.Held as_out Stays pass p) }
        ensures next { IsNext pass (taken_at result) (taken result) }

        // The value has the gate's origin and goes on from what the pass had seen.
        ensures value { IfTaken result (λ p held. GoesOn C.Held self.now pass held) }
        ensures seen { IfTaken result (λ p held. p.view.seen ≡ C.length held) }
        ensures taken { IfTaken result (λ p held. p.view.taken ≡ C.length held) }
        ensures over { IfTaken result (λ p held. p.view.over ≡ C.over held) }
        ensures found { IfTaken result (λ p held. IsHome p.view.last) }
        ensures told { IfTaken result (λ p held. Tells C.Held p.view.last held) }

        // It is refused exactly where the value was out.
        ensures same { IfHeld result (λ word p. KnowsTheSame pass p) }
        ensures cause { IfHeld result (λ word p. IsOut word) }
        ensures word { IfHeld result (λ word p. word ≡ p.view.last) }
    {
        let Inside { mut seat } = pass;
        let word = self
            .table
            .shared
            .fetch_or::<steps::Take>(&mut seat, TURN, 1);
        if word % 2 == 1 {
            let pass = Inside { seat };
            return Take::Held { word, pass };
        }
        let Some(held) = self.table.shared.exchange(&mut seat, 0, None) else {
            unreachable!()
        };
        let turn = Turning { seat };
        Take::Taken { turn, held }
    }

    /// Takes the value: a `fetch_or` of 1 on TURN, and then the value moves out of the slot. It is
    /// never refused, since while a pass is alone no other has the turn.
    pub fn take_alone(&self, pass: Alone<C>) -> (AloneTurning<C>, C)
        requires gate { IsOf self.now pass }
        ensures gate { IsOf self.now result.0 }

        // One step, which makes TURN odd. The value moves out of the slot.
        ensures step { StepsOnTurn C.Held as_out (MovesOut result.1) pass result.0 }
        ensures next { IsNext pass Place.AloneTurning result.0 }

        // The value has the gate's origin and goes on from what the pass had seen.
        ensures value { GoesOn C.Held self.now pass result.1 }
        ensures seen { result.0.view.seen ≡ C.length result.1 }
        ensures taken { result.0.view.taken ≡ C.length result.1 }
        ensures over { result.0.view.over ≡ C.over result.1 }
        ensures found { IsHome result.0.view.last }
        ensures told { Tells C.Held result.0.view.last result.1 }
    {
        let Alone { mut seat } = pass;
        self.table
            .shared
            .fetch_or::<steps::Take>(&mut seat, TURN, 1);
        let Some(held) = self.table.shared.exchange(&mut seat, 0, None) else {
            unreachable!()
        };
        (AloneTurning { seat }, held)
    }

    /// Gives the value back: it moves into the slot, and then a `swap` on TURN tells of it. The
    /// value has to have the gate's origin, be no shorter than it was, and be over where it was.
    pub fn give(&self, turn: Turning<C>, held: C) -> Inside<C>
        requires gate { IsOf self.now turn }
        requires length { turn.view.taken ≤ C.length held }
        requires over { IsTrue turn.view.over → IsTrue (C.over held) }
        requires origin { C.origin held ≡ self.now.origin }
        ensures gate { IsOf self.now result }

        // One step, after which TURN tells of the value. The value moves into the slot.
        ensures step { StepsOnTurn C.Held (λ _. turn_of C.Held held) (MovesIn held) turn result }
        ensures next { IsNext turn Place.Inside result }
        ensures seen { result.view.seen ≡ C.length held }
        ensures taken { result.view.taken ≡ turn.view.taken }
        ensures over { result.view.over ≡ C.over held }

        // The word found was odd, and told of the value as it was taken.
        ensures found { IsOut result.view.last }
        ensures found_length { length_in result.view.last ≡ turn.view.taken }
        ensures found_over { over_bit result.view.last ≡ turn.view.over }
    {
        let Turning { mut seat } = turn;
        let word = word_of(&held);
        self.table.shared.exchange(&mut seat, 0, Some(held));
        self.table.shared.swap::<steps::Give>(&mut seat, TURN, word);
        Inside { seat }
    }

    /// The same, of the pass that is alone. It stays so.
    pub fn give_alone(&self, turn: AloneTurning<C>, held: C) -> Alone<C>
        requires gate { IsOf self.now turn }
        requires length { turn.view.taken ≤ C.length held }
        requires over { IsTrue turn.view.over → IsTrue (C.over held) }
        requires origin { C.origin held ≡ self.now.origin }
        ensures gate { IsOf self.now result }

        // One step, after which TURN tells of the value. The value moves into the slot.
        ensures step { StepsOnTurn C.Held (λ _. turn_of C.Held held) (MovesIn held) turn result }
        ensures next { IsNext turn Place.Alone result }
        ensures seen { result.view.seen ≡ C.length held }
        ensures taken { result.view.taken ≡ turn.view.taken }
        ensures over { result.view.over ≡ C.over held }

        // The word found was odd, and told of the value as it was taken.
        ensures found { IsOut result.view.last }
        ensures found_length { length_in result.view.last ≡ turn.view.taken }
        ensures found_over { over_bit result.view.last ≡ turn.view.over }
    {
        let AloneTurning { mut seat } = turn;
        let word = word_of(&held);
        self.table.shared.exchange(&mut seat, 0, Some(held));
        self.table.shared.swap::<steps::Give>(&mut seat, TURN, word);
        Alone { seat }
    }
}
