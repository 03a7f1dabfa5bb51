ghost use Rattle.std.specs.Prelude.{◌≡◌, IsTrue};
ghost use Rattle.guest_words.specs.Effects.{class_of};
ghost use Rattle.guest_words.specs.HartAct.{act_of_class, first, second};
ghost use Rattle.guest_words.specs.Instructions.{NamesRegisters};
ghost use Rattle.guest_memory.specs.Text.{SameText};
ghost use Rattle.hart_step.specs.InPlace.{is_rare, parts, HasZero, IsMade};

use crate::before::Before;
use crate::did::Did;
use crate::memory_rows::{load, store};
use crate::rare_rows::{atomic_double, atomic_word, conditional, reserve};
use crate::register_rows::{branch, jump, register};
use crate::registers::{go_past, reg};
use guest_memory::Memory;
use guest_pages::Recent;
use guest_words::{FaultName, Hart, Inst, Op, Width};
use rv_word::word_of;

/// Carries out an instruction. Each row has a call of its own, so that the compiler makes one jump
/// of the choice.
#[inline(always)]
pub fn carry_out(
    memory: &mut Memory,
    recent: &mut Recent,
    before: &mut Before,
    hart: &mut Hart,
    inst: &Inst,
) -> Did
    requires registers { NamesRegisters inst.now }
    requires zero { HasZero hart.old }
    ensures made { IsMade (act_of_class (class_of inst.now.op) memory.old.space hart.old inst.now)
        (parts hart.old memory.old before.old) (parts hart.new memory.new before.new) result }
    ensures zero { HasZero hart.new }
    ensures text { SameText memory.old.space memory.new.space }
{
    let a = reg(hart, inst.rs1);
    let b = reg(hart, inst.rs2);
    let i = word_of(i64::from(inst.imm));
    match inst.op {
        Op::Jal => jump(hart, inst, Op::Jal, a, i),
        Op::Jalr => jump(hart, inst, Op::Jalr, a, i),
        Op::Beq => branch(hart, inst, Op::Beq, a, b, i),
        Op::Bne => branch(hart, inst, Op::Bne, a, b, i),
        Op::Blt => branch(hart, inst, Op::Blt, a, b, i),
        Op::Bge => branch(hart, inst, Op::Bge, a, b, i),
        Op::Bltu => branch(hart, inst, Op::Bltu, a, b, i),
        Op::Bgeu => branch(hart, inst, Op::Bgeu, a, b, i),
        Op::Lb => load(memory, recent, hart, inst, Op::Lb, a, i, Width::One),
        Op::Lh => load(memory, recent, hart, inst, Op::Lh, a, i, Width::Two),
        Op::Lw => load(memory, recent, hart, inst, Op::Lw, a, i, Width::Four),
        Op::Ld => load(memory, recent, hart, inst, Op::Ld, a, i, Width::Eight),
        Op::Lbu => load(memory, recent, hart, inst, Op::Lbu, a, i, Width::One),
        Op::Lhu => load(memory, recent, hart, inst, Op::Lhu, a, i, Width::Two),
        Op::Lwu => load(memory, recent, hart, inst, Op::Lwu, a, i, Width::Four),
        Op::Sb => store(memory, recent, before, hart, inst, a, i, b, Width::One),
        Op::Sh => store(memory, recent, before, hart, inst, a, i, b, Width::Two),
        Op::Sw => store(memory, recent, before, hart, inst, a, i, b, Width::Four),
        Op::Sd => store(memory, recent, before, hart, inst, a, i, b, Width::Eight),
        Op::Lui => register(hart, inst, Op::Lui, a, b, i),
        Op::Auipc => register(hart, inst, Op::Auipc, a, b, i),
        Op::Addi => register(hart, inst, Op::Addi, a, b, i),
        Op::Slti => register(hart, inst, Op::Slti, a, b, i),
        Op::Sltiu => register(hart, inst, Op::Sltiu, a, b, i),
        Op::Xori => register(hart, inst, Op::Xori, a, b, i),
        Op::Ori => register(hart, inst, Op::Ori, a, b, i),
        Op::Andi => register(hart, inst, Op::Andi, a, b, i),
        Op::Slli => register(hart, inst, Op::Slli, a, b, i),
        Op::Srli => register(hart, inst, Op::Srli, a, b, i),
        Op::Srai => register(hart, inst, Op::Srai, a, b, i),
        Op::Addiw => register(hart, inst, Op::Addiw, a, b, i),
        Op::Slliw => register(hart, inst, Op::Slliw, a, b, i),
        Op::Srliw => register(hart, inst, Op::Srliw, a, b, i),
        Op::Sraiw => register(hart, inst, Op::Sraiw, a, b, i),
        Op::Add => register(hart, inst, Op::Add, a, b, i),
        Op::Sll => register(hart, inst, Op::Sll, a, b, i),
        Op::Slt => register(hart, inst, Op::Slt, a, b, i),
        Op::Sltu => register(hart, inst, Op::Sltu, a, b, i),
        Op::Xor => register(hart, inst, Op::Xor, a, b, i),
        Op::Srl => register(hart, inst, Op::Srl, a, b, i),
        Op::Or => register(hart, inst, Op::Or, a, b, i),
        Op::And => register(hart, inst, Op::And, a, b, i),
        Op::Sub => register(hart, inst, Op::Sub, a, b, i),
        Op::Sra => register(hart, inst, Op::Sra, a, b, i),
        Op::Mul => register(hart, inst, Op::Mul, a, b, i),
        Op::Mulh => register(hart, inst, Op::Mulh, a, b, i),
        Op::Mulhsu => register(hart, inst, Op::Mulhsu, a, b, i),
        Op::Mulhu => register(hart, inst, Op::Mulhu, a, b, i),
        Op::Div => register(hart, inst, Op::Div, a, b, i),
        Op::Divu => register(hart, inst, Op::Divu, a, b, i),
        Op::Rem => register(hart, inst, Op::Rem, a, b, i),
        Op::Remu => register(hart, inst, Op::Remu, a, b, i),
        Op::Addw => register(hart, inst, Op::Addw, a, b, i),
        Op::Sllw => register(hart, inst, Op::Sllw, a, b, i),
        Op::Srlw => register(hart, inst, Op::Srlw, a, b, i),
        Op::Subw => register(hart, inst, Op::Subw, a, b, i),
        Op::Sraw => register(hart, inst, Op::Sraw, a, b, i),
        Op::Mulw => register(hart, inst, Op::Mulw, a, b, i),
        Op::Divw => register(hart, inst, Op::Divw, a, b, i),
        Op::Divuw => register(hart, inst, Op::Divuw, a, b, i),
        Op::Remw => register(hart, inst, Op::Remw, a, b, i),
        Op::Remuw => register(hart, inst, Op::Remuw, a, b, i),
        Op::Fence => {
            go_past(hart);
            Did::Went
        }
        _ => rare(memory, recent, before, hart, inst, a, b),
    }
}

/// An instruction that calls or stops the hart, or is atomic. In a call of its own none of them
/// burdens the others.
#[inline(never)]
fn rare(
    memory: &mut Memory,
    recent: &mut Recent,
    before: &mut Before,
    hart: &mut Hart,
    inst: &Inst,
    a: u64,
    b: u64,
) -> Did
    requires rare { IsTrue (is_rare (class_of inst.now.op)) }
    requires registers { NamesRegisters inst.now }
    requires zero { HasZero hart.old }
    requires a { a ≡ first hart.old inst.now }
    requires b { b ≡ second hart.old inst.now }
    ensures made { IsMade (act_of_class (class_of inst.now.op) memory.old.space hart.old inst.now)
        (parts hart.old memory.old before.old) (parts hart.new memory.new before.new) result }
    ensures zero { HasZero hart.new }
    ensures text { SameText memory.old.space memory.new.space }
{
    match inst.op {
        Op::Ecall => Did::Called,
        Op::Ebreak => Did::Fault(FaultName::Breakpoint),
        Op::LrW => reserve(memory, recent, hart, inst, Op::LrW, a, Width::Four),
        Op::ScW => conditional(memory, recent, before, hart, inst, a, b, Width::Four),
        Op::AmoswapW => atomic_word(memory, recent, before, hart, inst, Op::AmoswapW, a, b),
        Op::AmoaddW => atomic_word(memory, recent, before, hart, inst, Op::AmoaddW, a, b),
        Op::AmoxorW => atomic_word(memory, recent, before, hart, inst, Op::AmoxorW, a, b),
        Op::AmoandW => atomic_word(memory, recent, before, hart, inst, Op::AmoandW, a, b),
        Op::AmoorW => atomic_word(memory, recent, before, hart, inst, Op::AmoorW, a, b),
        Op::AmominW => atomic_word(memory, recent, before, hart, inst, Op::AmominW, a, b),
        Op::AmomaxW => atomic_word(memory, recent, before, hart, inst, Op::AmomaxW, a, b),
        Op::AmominuW => atomic_word(memory, recent, before, hart, inst, Op::AmominuW, a, b),
        Op::AmomaxuW => atomic_word(memory, recent, before, hart, inst, Op::AmomaxuW, a, b),
        Op::LrD => reserve(memory, recent, hart, inst, Op::LrD, a, Width::Eight),
        Op::ScD => conditional(memory, recent, before, hart, inst, a, b, Width::Eight),
        Op::AmoswapD => atomic_double(memory, recent, before, hart, inst, Op::AmoswapD, a, b),
        Op::AmoaddD => atomic_double(memory, recent, before, hart, inst, Op::AmoaddD, a, b),
        Op::AmoxorD => atomic_double(memory, recent, before, hart, inst, Op::AmoxorD, a, b),
        Op::AmoandD => atomic_double(memory, recent, before, hart, inst, Op::AmoandD, a, b),
        Op::AmoorD => atomic_double(memory, recent, before, hart, inst, Op::AmoorD, a, b),
        Op::AmominD => atomic_double(memory, recent, before, hart, inst, Op::AmominD, a, b),
        Op::AmomaxD => atomic_double(memory, recent, before, hart, inst, Op::AmomaxD, a, b),
        Op::AmominuD => atomic_double(memory, recent, before, hart, inst, Op::AmominuD, a, b),
        Op::AmomaxuD => atomic_double(memory, recent, before, hart, inst, Op::AmomaxuD, a, b),
        _ => unreachable!(),
    }
}
