ghost use Rattle.std.specs.Prelude.{◌≡◌, ◌⊎◌};
ghost use Rattle.guest_words.specs.Effects.{class_of, loaded_of};
ghost use Rattle.guest_words.specs.HartAct.{atomic_act, conditional_act, reserve_act, second};
ghost use Rattle.guest_words.specs.Instructions.{NamesRegisters};
ghost use Rattle.guest_memory.specs.Text.{SameText};
ghost use Rattle.hart_step.specs.InPlace.{parts, HasZero, IsDone, IsMade};

use crate::amo::Amo;
use crate::before::Before;
use crate::did::Did;
use crate::registers::go_past_with;
use guest_atomics::{holds, touch};
use guest_memory::Memory;
use guest_pages::Recent;
use guest_words::{Class, FaultName, Hart, Inst, Op, Reserved, Width};
use rv_word::sx32;

/// Reads memory into rd and reserves it.
#[inline(always)]
pub fn reserve(
    memory: &Memory,
    recent: &mut Recent,
    hart: &mut Hart,
    inst: &Inst,
    op: Op,
    place: u64,
    width: Width,
) -> Did
    requires class { class_of op ≡ Class.LoadReserved width }
    requires op { inst.now.op ≡ op }
    requires width { (width ≡ Width.Four) ⊎ (width ≡ Width.Eight) }
    requires registers { NamesRegisters inst.now }
    requires zero { HasZero hart.old }
    ensures done { IsDone (reserve_act memory.now.space hart.old inst.now place width)
        hart.old hart.new result }
    ensures zero { HasZero hart.new }
{
    if place % width.bytes() != 0 {
        return Did::Fault(FaultName::AtomicMisaligned);
    }
    match memory.read_near(recent, place, width) {
        Ok(number) => {
            let value = whole(op, width, number);
            go_past_with(hart, inst, value);
            hart.reservation = Some(Reserved {
                address: place,
                width,
            });
            Did::Went
        }
        Err(name) => Did::Fault(name),
    }
}

/// Writes memory where the reservation still holds.
#[inline(always)]
pub fn conditional(
    memory: &mut Memory,
    recent: &mut Recent,
    before: &mut Before,
    hart: &mut Hart,
    inst: &Inst,
    place: u64,
    b: u64,
    width: Width,
) -> Did
    requires width { (width ≡ Width.Four) ⊎ (width ≡ Width.Eight) }
    requires registers { NamesRegisters inst.now }
    requires zero { HasZero hart.old }
    requires b { b ≡ second hart.old inst.now }
    ensures made { IsMade (conditional_act memory.old.space hart.old inst.now place width)
        (parts hart.old memory.old before.old) (parts hart.new memory.new before.new) result }
    ensures zero { HasZero hart.new }
    ensures text { SameText memory.old.space memory.new.space }
{
    if place % width.bytes() != 0 {
        return Did::Fault(FaultName::AtomicMisaligned);
    }
    if !holds(hart, place, width) {
        if !memory.can_write(place, width.bytes()) {
            return Did::Fault(FaultName::StoreRights);
        }
        go_past_with(hart, inst, 1);
        hart.reservation = None;
        return Did::Went;
    }
    match memory.exchange(recent, place, width, b) {
        Ok(old) => {
            go_past_with(hart, inst, 0);
            hart.reservation = None;
            before.put(place, width, old);
            Did::Stored
        }
        Err(name) => Did::Fault(name),
    }
}

/// Reads memory into rd and stores what the old value and a register make.
#[inline(always)]
fn atomic(
    memory: &mut Memory,
    recent: &mut Recent,
    before: &mut Before,
    hart: &mut Hart,
    inst: &Inst,
    op: Op,
    place: u64,
    b: u64,
    width: Width,
) -> Did
    requires class { class_of op ≡ Class.Atomic width }
    requires op { inst.now.op ≡ op }
    requires width { (width ≡ Width.Four) ⊎ (width ≡ Width.Eight) }
    requires registers { NamesRegisters inst.now }
    requires zero { HasZero hart.old }
    requires b { b ≡ second hart.old inst.now }
    ensures made { IsMade (atomic_act memory.old.space hart.old inst.now place width)
        (parts hart.old memory.old before.old) (parts hart.new memory.new before.new) result }
    ensures zero { HasZero hart.new }
    ensures text { SameText memory.old.space memory.new.space }
{
    if place % width.bytes() != 0 {
        return Did::Fault(FaultName::AtomicMisaligned);
    }
    let change = Amo {
        op,
        width,
        operand: b,
    };
    match memory.change(recent, place, width, &change) {
        Ok(number) => {
            go_past_with(hart, inst, whole(op, width, number));
            touch(hart, place, width.bytes());
            before.put(place, width, number);
            Did::Stored
        }
        Err(name) => Did::Fault(name),
    }
}

/// The same for 32 bits.
#[inline(always)]
pub fn atomic_word(
    memory: &mut Memory,
    recent: &mut Recent,
    before: &mut Before,
    hart: &mut Hart,
    inst: &Inst,
    op: Op,
    place: u64,
    b: u64,
) -> Did
    requires class { class_of op ≡ Class.Atomic Width.Four }
    requires op { inst.now.op ≡ op }
    requires registers { NamesRegisters inst.now }
    requires zero { HasZero hart.old }
    requires b { b ≡ second hart.old inst.now }
    ensures made { IsMade (atomic_act memory.old.space hart.old inst.now place Width.Four)
        (parts hart.old memory.old before.old) (parts hart.new memory.new before.new) result }
    ensures zero { HasZero hart.new }
    ensures text { SameText memory.old.space memory.new.space }
{
    atomic(
        memory,
        recent,
        before,
        hart,
        inst,
        op,
        place,
        b,
        Width::Four,
    )
}

/// The same for 64 bits.
#[inline(always)]
pub fn atomic_double(
    memory: &mut Memory,
    recent: &mut Recent,
    before: &mut Before,
    hart: &mut Hart,
    inst: &Inst,
    op: Op,
    place: u64,
    b: u64,
) -> Did
    requires class { class_of op ≡ Class.Atomic Width.Eight }
    requires op { inst.now.op ≡ op }
    requires registers { NamesRegisters inst.now }
    requires zero { HasZero hart.old }
    requires b { b ≡ second hart.old inst.now }
    ensures made { IsMade (atomic_act memory.old.space hart.old inst.now place Width.Eight)
        (parts hart.old memory.old before.old) (parts hart.new memory.new before.new) result }
    ensures zero { HasZero hart.new }
    ensures text { SameText memory.old.space memory.new.space }
{
    atomic(
        memory,
        recent,
        before,
        hart,
        inst,
        op,
        place,
        b,
        Width::Eight,
    )
}

/// What an atomic instruction puts into rd, of the number in memory.
#[inline(always)]
pub(crate) fn whole(op: Op, width: Width, number: u64) -> u64
    requires class { (class_of op ≡ Class.LoadReserved width) ⊎ (class_of op ≡ Class.Atomic width) }
    requires width { (width ≡ Width.Four) ⊎ (width ≡ Width.Eight) }
    ensures value { result ≡ loaded_of op number }
{
    match width {
        Width::Four => sx32(number),
        _ => number,
    }
}
