ghost use Rattle.std.specs.Prelude.{◌≡◌, ◌<◌, ◌⊎◌, Some};
ghost use Rattle.guest_words.specs.Effects.{class_of};
ghost use Rattle.guest_words.specs.Harts;
ghost use Rattle.guest_words.specs.HartAct;
ghost use Rattle.guest_words.specs.HartAct.{access_place, atomic_act, branch_act, conditional_act, first, jump_act, jump_to, load_act, register_act, reserve_act, store_act, with_result, write_of};
ghost use Rattle.guest_words.specs.Instructions.{NamesRegisters};

use crate::memory_rows::loaded;
use crate::rare_rows::whole;
use guest_atomics::{amo, holds};
use guest_memory::Memory;
use guest_pages::Recent;
use guest_words::{Act, Class, FaultName, Hart, Inst, Reserved, Width, Write};
use rv_exec::{alu, branch_taken, target};
use rv_word::{sum, word_of};

/// The value of a register; x0 reads as 0.
fn reg(hart: &Hart, r: u8) -> u64
    requires register { r < 32 }
    ensures value { result ≡ Harts.reg hart.now r }
{
    if r == 0 { 0 } else { hart.regs[r as usize] }
}

/// A register gets a value; a write to x0 is lost.
fn with_reg(hart: &Hart, r: u8, value: u64) -> Hart
    requires register { r < 32 }
    ensures value { result ≡ Harts.with_reg hart.now r value }
{
    let mut next = *hart;
    if r != 0 {
        next.regs[r as usize] = value;
    }
    next
}

/// The hart behind an instruction that is no jump and link.
pub fn past(hart: &Hart) -> Hart
    ensures value { result ≡ Harts.past hart.now }
{
    let mut next = *hart;
    next.pc = hart.pc.wrapping_add(4);
    next.arrived = false;
    next
}

fn with_result(hart: &Hart, inst: &Inst, value: u64) -> Hart
    requires registers { NamesRegisters inst.now }
    ensures value { result ≡ with_result hart.now inst.now value }
{
    with_reg(&past(hart), inst.rd, value)
}

/// Puts a value formed from pc and registers into rd.
pub fn register(hart: &Hart, inst: &Inst) -> Act
    requires class { class_of inst.now.op ≡ Class.Register }
    requires registers { NamesRegisters inst.now }
    ensures value { result ≡ register_act hart.now inst.now }
{
    let first = reg(hart, inst.rs1);
    let second = reg(hart, inst.rs2);
    Act::Next {
        hart: with_result(
            hart,
            inst,
            alu(
                inst.op,
                hart.pc,
                first,
                second,
                word_of(i64::from(inst.imm)),
            ),
        ),
        write: None,
    }
}

/// Jumps where the branch's condition holds.
pub fn branch(hart: &Hart, inst: &Inst) -> Act
    requires class { class_of inst.now.op ≡ Class.Branch }
    requires registers { NamesRegisters inst.now }
    ensures value { result ≡ branch_act hart.now inst.now }
{
    let first = reg(hart, inst.rs1);
    let second = reg(hart, inst.rs2);
    let next = past(hart);
    if branch_taken(inst.op, first, second) {
        jump_to(
            next,
            target(inst.op, hart.pc, first, word_of(i64::from(inst.imm))),
        )
    } else {
        Act::Next {
            hart: next,
            write: None,
        }
    }
}

/// Jumps, with the address of the next instruction in rd; it may arrive at a point.
pub fn jump(hart: &Hart, inst: &Inst) -> Act
    requires class { class_of inst.now.op ≡ Class.Jump }
    requires registers { NamesRegisters inst.now }
    ensures value { result ≡ jump_act hart.now inst.now }
{
    let first = reg(hart, inst.rs1);
    let mut next = with_result(hart, inst, hart.pc.wrapping_add(4));
    next.arrived = true;
    jump_to(
        next,
        target(inst.op, hart.pc, first, word_of(i64::from(inst.imm))),
    )
}

fn jump_to(hart: Hart, target: u64) -> Act
    ensures value { result ≡ jump_to hart target }
{
    if target % 4 != 0 {
        return Act::Fault(FaultName::FetchMisaligned);
    }
    let mut next = hart;
    next.pc = target;
    Act::Next {
        hart: next,
        write: None,
    }
}

fn access_place(hart: &Hart, inst: &Inst) -> u64
    requires registers { NamesRegisters inst.now }
    ensures value { result ≡ access_place hart.now inst.now }
{
    sum(reg(hart, inst.rs1), word_of(i64::from(inst.imm)))
}

/// Reads memory into rd.
pub fn load(memory: &Memory, hart: &Hart, inst: &Inst, width: Width) -> Act
    requires class { class_of inst.now.op ≡ Class.Load width }
    requires registers { NamesRegisters inst.now }
    ensures value { result ≡ load_act memory.now.space hart.now inst.now
        (access_place hart.now inst.now) width }
{
    let place = access_place(hart, inst);
    match memory.read_near(&mut Recent::new(), place, width) {
        Err(name) => Act::Fault(name),
        Ok(number) => Act::Next {
            hart: with_result(hart, inst, loaded(inst.op, width, number)),
            write: None,
        },
    }
}

/// Writes a register to memory.
pub fn store(memory: &Memory, hart: &Hart, inst: &Inst, width: Width) -> Act
    requires registers { NamesRegisters inst.now }
    ensures value { result ≡ store_act memory.now.space hart.now inst.now
        (access_place hart.now inst.now) width }
{
    let place = access_place(hart, inst);
    if !memory.can_write(place, width.bytes()) {
        return Act::Fault(FaultName::StoreRights);
    }
    Act::Next {
        hart: past(hart),
        write: Some(Write {
            address: place,
            width,
            value: reg(hart, inst.rs2),
        }),
    }
}

/// Reads memory into rd and reserves it.
pub fn reserve(memory: &Memory, hart: &Hart, inst: &Inst, width: Width) -> Act
    requires class { class_of inst.now.op ≡ Class.LoadReserved width }
    requires width { (width ≡ Width.Four) ⊎ (width ≡ Width.Eight) }
    requires registers { NamesRegisters inst.now }
    ensures value { result ≡ reserve_act memory.now.space hart.now inst.now
        (first hart.now inst.now) width }
{
    let place = reg(hart, inst.rs1);
    if place % width.bytes() != 0 {
        return Act::Fault(FaultName::AtomicMisaligned);
    }
    match memory.read(place, width) {
        Err(name) => Act::Fault(name),
        Ok(number) => {
            let mut next = with_result(hart, inst, whole(inst.op, width, number));
            next.reservation = Some(Reserved {
                address: place,
                width,
            });
            Act::Next {
                hart: next,
                write: None,
            }
        }
    }
}

/// Writes memory where the reservation still holds.
pub fn conditional(memory: &Memory, hart: &Hart, inst: &Inst, width: Width) -> Act
    requires registers { NamesRegisters inst.now }
    ensures value { result ≡ conditional_act memory.now.space hart.now inst.now
        (first hart.now inst.now) width }
{
    let place = reg(hart, inst.rs1);
    if place % width.bytes() != 0 {
        return Act::Fault(FaultName::AtomicMisaligned);
    }
    if !memory.can_write(place, width.bytes()) {
        return Act::Fault(FaultName::StoreRights);
    }
    if holds(hart, place, width) {
        Act::Next {
            hart: answered(hart, inst, 0),
            write: written(place, width, reg(hart, inst.rs2)),
        }
    } else {
        Act::Next {
            hart: answered(hart, inst, 1),
            write: None,
        }
    }
}

fn answered(hart: &Hart, inst: &Inst, answer: u64) -> Hart
    requires registers { NamesRegisters inst.now }
    ensures value { result ≡ HartAct.conditional hart.now inst.now answer }
{
    let mut next = with_result(hart, inst, answer);
    next.reservation = None;
    next
}

fn written(address: u64, width: Width, value: u64) -> Option<Write>
    ensures value { result ≡ write_of address width value }
{
    Some(Write {
        address,
        width,
        value,
    })
}

/// Reads memory into rd and stores what the old value and a register make.
pub fn atomic(memory: &Memory, hart: &Hart, inst: &Inst, width: Width) -> Act
    requires class { class_of inst.now.op ≡ Class.Atomic width }
    requires width { (width ≡ Width.Four) ⊎ (width ≡ Width.Eight) }
    requires registers { NamesRegisters inst.now }
    ensures value { result ≡ atomic_act memory.now.space hart.now inst.now
        (first hart.now inst.now) width }
{
    let place = reg(hart, inst.rs1);
    if place % width.bytes() != 0 {
        return Act::Fault(FaultName::AtomicMisaligned);
    }
    match memory.read_to_write(&mut Recent::new(), place, width) {
        Err(name) => Act::Fault(name),
        Ok(number) => Act::Next {
            hart: with_result(hart, inst, whole(inst.op, width, number)),
            write: written(place, width, amo(inst.op, number, reg(hart, inst.rs2))),
        },
    }
}
