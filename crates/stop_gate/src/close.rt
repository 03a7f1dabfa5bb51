//! How a gate ends.
ghost use Rattle.std.specs.Prelude.{IfSome};
ghost use Rattle.stop_gate.specs.Passes.{IsOf, GoesOn};
ghost use Rattle.stop_gate.specs.Closing.{Ends};

use crate::gate::Gate;
use crate::held::Held;
use crate::passes::Out;
use crate::word::TURN;

impl<C: Held> Gate<C> {
    /// Ends the gate. The value comes back, unless it is out with a pass that never gave it back.
    pub fn close(self, pass: Out<C>) -> Option<C>
        requires gate { IsOf self pass }
        ensures ended { Ends C.Held self.origin pass result }
        ensures value { IfSome result (λ held. GoesOn C.Held self pass held) }
    {
        let Gate { table } = self;
        let Out { seat } = pass;
        let mut closed = table.close_with(seat);
        let word = closed.word(TURN);
        let value = closed.take(0);
        closed.free();
        if word % 2 == 1 { None } else { value }
    }
}
