//! How a pass gets in and out.
ghost use Rattle.std.specs.Prelude.{◌≡◌, ◌+◌, ◌-◌, ◌<◌, IsTrue, IsFalse};
ghost use Rattle.stop_gate.specs.Words.{stop_bit, low_part};
ghost use Rattle.stop_gate.specs.Passes.{IsOf, IsNext, KnowsTheSame, StepsOnGate};
ghost use Rattle.stop_gate.specs.Answers.{entered, entered_at, IfInside, IfStanding};

use crate::answers::Enter;
use crate::gate::Gate;
use crate::held::Held;
use crate::passes::{Backing, Inside, Out};
use crate::steps;
use crate::view::Place;
use crate::word::{GATE, STOP};

impl<C: Held> Gate<C> {
    /// Counts the pass: a `fetch_add` of 1 on GATE. Where the stop bit stood in the word found, the
    /// pass isn't inside, though it counts, and has to go `back`.
    pub fn try_enter(&self, pass: Out<C>) -> Enter<C>
        requires gate { IsOf self.now pass }
        ensures gate { IsOf self.now (entered result) }

        // One step, which raises GATE by 1.
        ensures step { StepsOnGate C.Held (λ gate. gate + 1) pass (entered result) }
        ensures next { IsNext pass (entered_at result) (entered result) }
        ensures same { KnowsTheSame pass (entered result) }

        // It is refused exactly where the stop bit stood in the word found.
        ensures inside { IfInside result (λ p. IsFalse (stop_bit p.view.last)) }
        ensures cause { IfStanding result (λ word p. IsTrue (stop_bit word)) }
        ensures word { IfStanding result (λ word p. word ≡ p.view.last) }
    {
        let Out { mut seat } = pass;
        let word = self
            .table
            .shared
            .fetch_add::<steps::Enter>(&mut seat, GATE, 1);
        if word >= STOP {
            let back = Backing { seat };
            Enter::Standing { word, back }
        } else {
            Enter::Inside(Inside { seat })
        }
    }

    /// Takes a pass that was refused out of the count: a `fetch_sub` of 1 on GATE. It is outside
    /// then.
    pub fn back(&self, pass: Backing<C>) -> Out<C>
        requires gate { IsOf self.now pass }
        ensures gate { IsOf self.now result }

        // One step, which lowers the low part of GATE by 1.
        ensures step { StepsOnGate C.Held (λ gate. gate - 1) pass result }
        ensures next { IsNext pass Place.Out result }
        ensures same { KnowsTheSame pass result }
        ensures found { 0 < low_part result.view.last }
    {
        let Backing { mut seat } = pass;
        self.table
            .shared
            .fetch_sub::<steps::Leave>(&mut seat, GATE, 1);
        Out { seat }
    }

    /// Takes a pass that is inside out of the count: a `fetch_sub` of 1 on GATE. It is outside
    /// then.
    pub fn leave(&self, pass: Inside<C>) -> Out<C>
        requires gate { IsOf self.now pass }
        ensures gate { IsOf self.now result }

        // One step, which lowers the low part of GATE by 1.
        ensures step { StepsOnGate C.Held (λ gate. gate - 1) pass result }
        ensures next { IsNext pass Place.Out result }
        ensures same { KnowsTheSame pass result }
        ensures found { 0 < low_part result.view.last }
    {
        let Inside { mut seat } = pass;
        self.table
            .shared
            .fetch_sub::<steps::Leave>(&mut seat, GATE, 1);
        Out { seat }
    }
}
