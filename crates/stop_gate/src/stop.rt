//! The stop bit: how one pass gets to be alone.
ghost use Rattle.std.specs.Prelude.{◌≡◌, ◌+◌, ◌-◌, ◌<◌, IsTrue, IsFalse};
ghost use Rattle.stop_gate.specs.Words.{stop_bit, low_part, with_stop};
ghost use Rattle.stop_gate.specs.Passes.{IsOf, IsNext, KnowsTheSame, StepsOnGate};
ghost use Rattle.stop_gate.specs.Answers.{raised, raised_at, IfStopping, IfBusy, seized, seized_at, IfAlone, IfNotYet};

use crate::answers::{Raise, Seize};
use crate::gate::Gate;
use crate::held::Held;
use crate::passes::{Alone, Out, Stopping};
use crate::steps;
use crate::view::Place;
use crate::word::{GATE, LOW, STOP};

impl<C: Held> Gate<C> {
    /// Raises the stop bit: a `fetch_or` on GATE. Where it stood already, another pass has raised
    /// it. While it stands no pass gets in.
    pub fn raise(&self, pass: Out<C>) -> Raise<C>
        requires gate { IsOf self.now pass }
        ensures gate { IsOf self.now (raised result) }

        // One step, which sets the stop bit of GATE.
        ensures step { StepsOnGate C.Held with_stop pass (raised result) }
        ensures next { IsNext pass (raised_at result) (raised result) }
        ensures same { KnowsTheSame pass (raised result) }

        // It is refused exactly where the stop bit stood in the word found.
        ensures stopping { IfStopping result (λ p. IsFalse (stop_bit p.view.last)) }
        ensures cause { IfBusy result (λ word p. IsTrue (stop_bit word)) }
        ensures word { IfBusy result (λ word p. word ≡ p.view.last) }
    {
        let Out { mut seat } = pass;
        let word = self
            .table
            .shared
            .fetch_or::<steps::Raise>(&mut seat, GATE, STOP);
        if word >= STOP {
            let pass = Out { seat };
            Raise::Busy { word, pass }
        } else {
            Raise::Stopping(Stopping { seat })
        }
    }

    /// Looks how many passes count: a load of GATE. Where none does, the pass is alone until it
    /// lowers the stop bit: no other is inside.
    pub fn seize(&self, pass: Stopping<C>) -> Seize<C>
        requires gate { IsOf self.now pass }
        ensures gate { IsOf self.now (seized result) }

        // One step, which leaves GATE as it is.
        ensures step { StepsOnGate C.Held (λ gate. gate) pass (seized result) }
        ensures next { IsNext pass (seized_at result) (seized result) }
        ensures same { KnowsTheSame pass (seized result) }

        // It is refused exactly where a pass counted in the word found.
        ensures alone { IfAlone result (λ p. low_part p.view.last ≡ 0) }
        ensures cause { IfNotYet result (λ inside p. 0 < inside) }
        ensures count { IfNotYet result (λ inside p. inside ≡ low_part p.view.last) }
    {
        let Stopping { mut seat } = pass;
        let inside = self.table.shared.load::<steps::Seize>(&mut seat, GATE) % STOP;
        if inside == 0 {
            Seize::Alone(Alone { seat })
        } else {
            let pass = Stopping { seat };
            Seize::NotYet { inside, pass }
        }
    }

    /// Lowers the stop bit: a `fetch_and` on GATE. The pass is outside then.
    pub fn lower(&self, pass: Alone<C>) -> Out<C>
        requires gate { IsOf self.now pass }
        ensures gate { IsOf self.now result }

        // One step, which takes the stop bit from GATE.
        ensures step { StepsOnGate C.Held low_part pass result }
        ensures next { IsNext pass Place.Out result }
        ensures same { KnowsTheSame pass result }
        ensures found { IsTrue (stop_bit result.view.last) }
    {
        let Alone { mut seat } = pass;
        self.table
            .shared
            .fetch_and::<steps::Lower>(&mut seat, GATE, LOW);
        Out { seat }
    }
}
