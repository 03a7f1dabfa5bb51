//! What the rule of a gate says of single passes.
ghost use Rattle.stop_gate.specs.Consequences.{LowPartCounts, StopBitIsRaised, StopperHasTheBit, OneStops, AloneIsAlone, OddIsTaken, TakerMakesOdd, OneTurns, TakerKnows, EvenIsHome, SeenIsThere, OverIsTold, FewPasses};

use crate::gate::Gate;
use crate::held::Held;

impl<C: Held> Gate<C> {
    /// Does nothing. Its contract says what holds in each state that the rule allows, and so right
    /// before and right after each step that a call makes.
    pub fn rule(&self)
        // What GATE says of the passes.
        ensures low_part { LowPartCounts C.Held }
        ensures stop_bit { StopBitIsRaised C.Held }
        ensures stopper { StopperHasTheBit C.Held }
        ensures one_stops { OneStops C.Held }
        ensures alone { AloneIsAlone C.Held }

        // What TURN says of them, and of the value.
        ensures odd { OddIsTaken C.Held }
        ensures taker { TakerMakesOdd C.Held }
        ensures one_turns { OneTurns C.Held }
        ensures taken { TakerKnows C.Held }
        ensures home { EvenIsHome C.Held }

        // What a pass has seen, and how many there are.
        ensures seen { SeenIsThere C.Held }
        ensures over { OverIsTold C.Held }
        ensures few { FewPasses C.Held }
    {}
}
