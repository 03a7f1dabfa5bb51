ghost use Rattle.std.specs.Prelude.{◌≡◌};
ghost use Rattle.guest_words.specs.Effects.{class_of};
ghost use Rattle.guest_words.specs.Word.{word_of};
ghost use Rattle.guest_words.specs.HartAct.{branch_act, first, jump_act, jump_to, register_act, second};
ghost use Rattle.guest_words.specs.Instructions.{NamesRegisters};
ghost use Rattle.hart_step.specs.InPlace.{HasZero, IsDone};

use crate::did::Did;
use crate::registers::{go_past, go_past_with, put};
use guest_words::{Class, FaultName, Hart, Inst, Op};
use rv_exec::{alu, branch_taken, target};

/// Puts a value formed from pc, registers and immediate into rd. The row is handed in apart, so
/// that each call of this function is of one row.
#[inline(always)]
pub fn register(hart: &mut Hart, inst: &Inst, op: Op, a: u64, b: u64, i: u64) -> Did
    requires class { class_of op ≡ Class.Register }
    requires op { inst.now.op ≡ op }
    requires registers { NamesRegisters inst.now }
    requires zero { HasZero hart.old }
    requires a { a ≡ first hart.old inst.now }
    requires b { b ≡ second hart.old inst.now }
    requires i { i ≡ word_of inst.now.imm }
    ensures done { IsDone (register_act hart.old inst.now) hart.old hart.new result }
    ensures zero { HasZero hart.new }
{
    let value = alu(op, hart.pc, a, b, i);
    go_past_with(hart, inst, value);
    Did::Went
}

/// Jumps where the branch's condition holds.
#[inline(always)]
pub fn branch(hart: &mut Hart, inst: &Inst, op: Op, a: u64, b: u64, i: u64) -> Did
    requires class { class_of op ≡ Class.Branch }
    requires op { inst.now.op ≡ op }
    requires zero { HasZero hart.old }
    requires a { a ≡ first hart.old inst.now }
    requires b { b ≡ second hart.old inst.now }
    requires i { i ≡ word_of inst.now.imm }
    ensures done { IsDone (branch_act hart.old inst.now) hart.old hart.new result }
    ensures zero { HasZero hart.new }
{
    if !branch_taken(op, a, b) {
        go_past(hart);
        return Did::Went;
    }
    let place = target(op, hart.pc, a, i);
    if place % 4 != 0 {
        return Did::Fault(FaultName::FetchMisaligned);
    }
    hart.pc = place;
    hart.arrived = false;
    Did::Went
}

/// Jumps, with the address of the next instruction in rd; it may arrive at a point.
#[inline(always)]
pub fn jump(hart: &mut Hart, inst: &Inst, op: Op, a: u64, i: u64) -> Did
    requires class { class_of op ≡ Class.Jump }
    requires op { inst.now.op ≡ op }
    requires registers { NamesRegisters inst.now }
    requires zero { HasZero hart.old }
    requires a { a ≡ first hart.old inst.now }
    requires i { i ≡ word_of inst.now.imm }
    ensures done { IsDone (jump_act hart.old inst.now) hart.old hart.new result }
    ensures zero { HasZero hart.new }
{
    let place = target(op, hart.pc, a, i);
    if place % 4 != 0 {
        return Did::Fault(FaultName::FetchMisaligned);
    }
    let link = hart.pc.wrapping_add(4);
    put(hart, inst.rd, link);
    hart.pc = place;
    hart.arrived = true;
    Did::Went
}
