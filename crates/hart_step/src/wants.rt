//! Whether a hart's next act is a call that can want memory.
ghost use Rattle.std.specs.Prelude.{◌≡◌};
ghost use Rattle.guest_words.specs.HartAct.{hart_act};
ghost use Rattle.hart_step.specs.Legs.{is_call};
ghost use Rattle.hart_step.specs.Stops.{act_wants, can_want};

use crate::guest::Guest;
use crate::look::arrival;
use crate::text::inst_at;
use guest_syscalls::ask;
use guest_words::{Class, Hart, Request};

impl Guest {
    /// Whether the next act of a hart with so many frames open is a call that can want memory.
    pub(crate) fn wants_memory(&self, hart: &Hart, frames: usize, noted: bool) -> bool
        ensures value { result
            ≡ act_wants noted (hart_act self.now.memory.space self.now.points frames hart.now) }
    {
        can_want(noted, &ask(hart)) && self.is_at_call(hart, frames)
    }

    fn is_at_call(&self, hart: &Hart, frames: usize) -> bool
        ensures value { result
            ≡ is_call (hart_act self.now.memory.space self.now.points frames hart.now) }
    {
        match arrival(&self.points, frames, hart) {
            Some(_) => false,
            None => match inst_at(&self.memory, hart.pc) {
                Some(inst) => matches!(inst.op.class(), Class::Call),
                None => false,
            },
        }
    }
}

fn can_want(noted: bool, request: &Request) -> bool
    ensures value { result ≡ can_want noted request.now }
{
    match request {
        Request::Break { .. } | Request::Map { .. } => true,
        Request::Unmap { .. } => noted,
        _ => false,
    }
}
