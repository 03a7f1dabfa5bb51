ghost use Rattle.std.specs.Prelude.{◌≡◌, IfOk, length};
ghost use Rattle.guest_words.specs.HartAct.{arrival_of};
ghost use Rattle.guest_words.specs.Instructions.{NamesRegisters};
ghost use Rattle.hart_step.specs.Looked.{looked};

use guest_memory::Memory;
use guest_words::limits::FRAMES;
use guest_words::{FaultName, Hart, Inst, PointRef, Points};
use rv_decode::decode;

/// The instruction at an address, or the fault of its fetch.
pub fn look(memory: &Memory, pc: u64) -> Result<Inst, FaultName>
    ensures value { result ≡ looked memory.now.space pc }
    ensures registers { IfOk result (λ inst. NamesRegisters inst) }
{
    let word = memory.fetch(pc)?;
    match decode(word) {
        Some(inst) => Ok(inst),
        None => Err(FaultName::Illegal),
    }
}

/// The point that a hart with so many frames stands at, just after a jump there.
pub fn arrival(points: &Points, frames: usize, hart: &Hart) -> Option<PointRef>
    ensures value { result ≡ arrival_of points.now frames hart.now }
{
    if hart.arrived && frames < FRAMES {
        points.active_at(hart.pc)
    } else {
        None
    }
}
