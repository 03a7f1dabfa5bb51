ghost use Rattle.std.specs.Prelude.{◌≡◌, ◌≢◌, Err, IfErr, IfOk, OnOk};
ghost use Rattle.guest_words.specs.HartAct.{hart_act};
ghost use Rattle.hart_step.specs.InPlace.{parts, HasZero, IsMade};
ghost use Rattle.hart_step.specs.Looked.{looked};
ghost use Rattle.hart_step.specs.Table.{place_of, IsFetched, IsPlaced, IsStill, IsTable};

use crate::before::Before;
use crate::carry::carry_out;
use crate::did::Did;
use crate::known::{FIRST, Known, place_of};
use crate::look::{arrival, look};
use guest_memory::Memory;
use guest_pages::Recent;
use guest_words::{FaultName, Hart, Points};

/// The act of a hart with so many frames open, in place, before its frames close.
#[inline(always)]
pub fn step(
    hart: &mut Hart,
    memory: &mut Memory,
    recent: &mut Recent,
    before: &mut Before,
    points: &Points,
    frames: usize,
    table: &mut [Known],
) -> Did
    requires table { IsTable memory.old.space points.now table.old }
    requires zero { HasZero hart.old }
    ensures made { IsMade (hart_act memory.old.space points.now frames hart.old)
        (parts hart.old memory.old before.old) (parts hart.new memory.new before.new) result }
    ensures table { IsTable memory.new.space points.now table.new }
    ensures zero { HasZero hart.new }
{
    match place_for(hart, memory, points, frames, table) {
        Ok(place) => carry_out(memory, recent, before, hart, &table[place].inst),
        Err(did) => did,
    }
}

/// The place of the instruction that a hart carries out, or what it does instead.
#[inline(always)]
fn place_for(
    hart: &Hart,
    memory: &Memory,
    points: &Points,
    frames: usize,
    table: &mut [Known],
) -> Result<usize, Did>
    requires table { IsTable memory.now.space points.now table.old }
    ensures table { IsTable memory.now.space points.now table.new }
    ensures placed { IfOk result (IsPlaced memory.now.space points.now frames hart.now table.new) }
    ensures still { IfErr result (IsStill memory.now points.now frames hart.now) }
{
    let place = place_of(hart.pc);
    if table[place].pc == hart.pc {
        return Ok(place);
    }
    match learn(hart, memory, points, frames, table) {
        Did::Went => Ok(place),
        Did::Arrived => Err(Did::Arrived),
        Did::Fault(name) => Err(Did::Fault(name)),
        did => Err(did),
    }
}

/// Puts the instruction at an address at its place, which lacks it, where the hart can go on with
/// it, or says what the hart does instead.
#[inline(never)]
fn learn(hart: &Hart, memory: &Memory, points: &Points, frames: usize, table: &mut [Known]) -> Did
    requires table { IsTable memory.now.space points.now table.old }
    ensures table { IsTable memory.now.space points.now table.new }
    ensures placed { result ≡ Did.Went
        → IsPlaced memory.now.space points.now frames hart.now table.new (place_of hart.now.pc) }
    ensures still { result ≢ Did.Went → IsStill memory.now points.now frames hart.now result }
{
    if arrival(points, frames, hart).is_some() {
        return Did::Arrived;
    }
    let first = table[FIRST];
    if first.pc == hart.pc && hart.pc % 4 == 0 {
        table[place_of(hart.pc)] = Known {
            inst: first.inst,
            pc: apart_from(hart.pc),
        };
        return Did::Went;
    }
    match fetch_at(hart.pc, memory, points, table) {
        Ok(()) => Did::Went,
        Err(name) => Did::Fault(name),
    }
}

/// Fetches the instruction at an address, and puts it at its place. Where an active point begins
/// there, it is found again behind the places alone.
fn fetch_at(pc: u64, memory: &Memory, points: &Points, table: &mut [Known]) -> Result<(), FaultName>
    requires table { IsTable memory.now.space points.now table.old }
    ensures table { IsTable memory.now.space points.now table.new }
    ensures ok { OnOk result (IsFetched memory.now.space pc table.new) }
    ensures err { IfErr result (λ name. looked memory.now.space pc ≡ Err name) }
{
    let inst = look(memory, pc)?;
    if points.active_at(pc).is_none() {
        table[place_of(pc)] = Known { inst, pc };
    } else {
        table[FIRST] = Known { inst, pc };
        table[place_of(pc)] = Known {
            inst,
            pc: apart_from(pc),
        };
    }
    Ok(())
}

/// An address of another place. What is kept under it at the place of this one, nobody finds again.
fn apart_from(pc: u64) -> u64
    ensures other { place_of result ≢ place_of pc }
{
    if place_of(pc) == 1 { 0 } else { 4 }
}
