ghost use Rattle.std.specs.Prelude.{◌≡◌};
ghost use Rattle.guest_words.specs.Effects.{class_of};
ghost use Rattle.guest_words.specs.HartAct.{act_of_class, fetched_act, hart_act};
ghost use Rattle.guest_words.specs.Instructions.{NamesRegisters};

use crate::look::{arrival, look};
use crate::outcomes::{atomic, branch, conditional, jump, load, past, register, reserve, store};
use guest_memory::Memory;
use guest_syscalls::ask;
use guest_words::{Act, Class, FaultName, Hart, Inst, Points};

/// The act of a hart with so many frames open, before they close. Takes no memory.
#[tactic(auto, unfolding(guest_words::specs::HartAct::hart_act))]
pub fn decide(hart: &Hart, memory: &Memory, points: &Points, frames: usize) -> Act
    ensures value { result ≡ hart_act memory.now.space points.now frames hart.now }
{
    match arrival(points, frames, hart) {
        Some(point) => Act::Arrived(point),
        None => fetched(memory, hart),
    }
}

// The instruction at pc is fetched and carried out.
fn fetched(memory: &Memory, hart: &Hart) -> Act
    ensures value { result ≡ fetched_act memory.now.space hart.now }
{
    match look(memory, hart.pc) {
        Ok(inst) => carried_out(memory, hart, &inst),
        Err(name) => Act::Fault(name),
    }
}

fn carried_out(memory: &Memory, hart: &Hart, inst: &Inst) -> Act
    requires registers { NamesRegisters inst.now }
    ensures value { result
        ≡ act_of_class (class_of inst.now.op) memory.now.space hart.now inst.now }
{
    match inst.op.class() {
        Class::Register => register(hart, inst),
        Class::Branch => branch(hart, inst),
        Class::Jump => jump(hart, inst),
        Class::Load { width } => load(memory, hart, inst, width),
        Class::Store { width } => store(memory, hart, inst, width),
        Class::Fence => Act::Next {
            hart: past(hart),
            write: None,
        },
        Class::Call => Act::Call(ask(hart)),
        Class::Break => Act::Fault(FaultName::Breakpoint),
        Class::LoadReserved { width } => reserve(memory, hart, inst, width),
        Class::StoreConditional { width } => conditional(memory, hart, inst, width),
        Class::Atomic { width } => atomic(memory, hart, inst, width),
    }
}
