ghost use Rattle.std.specs.Prelude.{◌≡◌, ℕ, ◌+◌, ◌*◌, ◌%◌, ◌^◌, ◌<◌, ◌≤◌, Some};
ghost use Rattle.guest_words.specs.Instructions.{bits, instruction_of};
ghost use Rattle.load_maker.specs.Encoding.{IsWordOf, fields_at, imm_bits, room_of, word_of_inst};

use crate::form::form;
use guest_words::{Format, Inst};

/// The word of an instruction. An instruction that no word is gets some word.
pub fn encode(inst: &Inst) -> u32
    ensures value { result ≡ word_of_inst inst.now }
    ensures read { (word : ℕ) → instruction_of word ≡ Some inst.now → IsWordOf inst.now result }
{
    let (format, bits) = form(inst.op);
    bits + fields(inst, format)
}

/// The registers and the immediate of an instruction, in their places.
fn fields(inst: &Inst, format: Format) -> u32
    ensures value { result ≡ fields_at format inst.now }
    ensures within { result ≤ room_of format }
{
    let rd = u32::from(inst.rd % 32) << 7;
    let rs1 = u32::from(inst.rs1 % 32) << 15;
    let rs2 = u32::from(inst.rs2 % 32) << 20;
    match format {
        Format::Upper => (imm(inst, 31, 12) << 12) + rd,
        Format::Jump => jump_offset(inst) + rd,
        Format::Immediate => (imm(inst, 11, 0) << 20) + rs1 + rd,
        Format::Branch => branch_offset(inst) + rs2 + rs1,
        Format::Store => (imm(inst, 11, 5) << 25) + (imm(inst, 4, 0) << 7) + rs2 + rs1,
        Format::Shift => (imm(inst, 5, 0) << 20) + rs1 + rd,
        Format::WordShift => (imm(inst, 4, 0) << 20) + rs1 + rd,
        Format::Register => rs2 + rs1 + rd,
        Format::Bare => 0,
    }
}

/// Bits high to low of the immediate.
#[inline]
fn imm(inst: &Inst, high: u32, low: u32) -> u32
    requires order { low ≤ high }
    requires within { high < 31 + low }
    requires inside { high < 32 }
    ensures { result ≡ imm_bits high low inst.now.imm }
{
    (inst.imm.cast_unsigned() >> low) % (1 << (high + 1 - low))
}

/// The immediate of a jump in its places: bits 20, 10 to 1, 11 and 19 to 12.
fn jump_offset(inst: &Inst) -> u32
    ensures value { result
        ≡ imm_bits 20 20 inst.now.imm * 2 ^ 31
        + imm_bits 10 1 inst.now.imm * 2 ^ 21
        + imm_bits 11 11 inst.now.imm * 2 ^ 20
        + imm_bits 19 12 inst.now.imm * 2 ^ 12 }
    ensures within { result ≤ 0xfffff000 }
{
    let high = (imm(inst, 20, 20) << 31) + (imm(inst, 10, 1) << 21);
    high + (imm(inst, 11, 11) << 20) + (imm(inst, 19, 12) << 12)
}

/// The immediate of a branch in its places: bits 12, 10 to 5, 4 to 1 and 11.
fn branch_offset(inst: &Inst) -> u32
    ensures value { result
        ≡ imm_bits 12 12 inst.now.imm * 2 ^ 31
        + imm_bits 10 5 inst.now.imm * 2 ^ 25
        + imm_bits 4 1 inst.now.imm * 2 ^ 8
        + imm_bits 11 11 inst.now.imm * 2 ^ 7 }
    ensures within { result ≤ 0xfe000f80 }
{
    let high = (imm(inst, 12, 12) << 31) + (imm(inst, 10, 5) << 25);
    high + (imm(inst, 4, 1) << 8) + (imm(inst, 11, 11) << 7)
}
