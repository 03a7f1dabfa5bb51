ghost use Rattle.guest_words.specs.Instructions.{instruction_of, NamesRegisters};
ghost use Rattle.rv_decode.specs.Rows.{FitsRow, fields_of};
ghost use Rattle.std.specs.Prelude.{◌≡◌, IfSome};

use crate::formats::{bits, read};
use crate::rows;
use guest_words::{Format, Inst, Op};

/// The instruction of a word, or None where it fits no row of the table.
pub fn decode(word: u32) -> Option<Inst>
    ensures value { result ≡ instruction_of word }
    ensures within { IfSome result (λ inst. NamesRegisters inst) }
{
    let opcode = bits(word, 6, 0);
    let f3 = bits(word, 14, 12);
    let rs2 = bits(word, 24, 20);
    let f7 = bits(word, 31, 25);
    let f6 = bits(word, 31, 26);
    let f5 = bits(word, 31, 27);
    match opcode {
        0x37 => found(word, Format::Upper, Some(Op::Lui)),
        0x17 => found(word, Format::Upper, Some(Op::Auipc)),
        0x6f => found(word, Format::Jump, Some(Op::Jal)),
        0x67 => found(word, Format::Immediate, rows::jalr(f3)),
        0x63 => found(word, Format::Branch, rows::branch(f3)),
        0x03 => found(word, Format::Immediate, rows::load(f3)),
        0x23 => found(word, Format::Store, rows::store(f3)),
        0x13 => match f3 {
            1 | 5 => found(word, Format::Shift, rows::shift(f3, f6)),
            _ => found(word, Format::Immediate, rows::immediate(f3)),
        },
        0x1b => match f3 {
            0 => found(word, Format::Immediate, Some(Op::Addiw)),
            _ => found(word, Format::WordShift, rows::word_shift(f3, f7)),
        },
        0x33 => found(word, Format::Register, rows::register(f3, f7)),
        0x3b => found(word, Format::Register, rows::word_register(f3, f7)),
        0x0f => found(word, Format::Bare, rows::fence(f3)),
        0x73 => found(word, Format::Bare, rows::system(word)),
        0x2f => found(word, Format::Register, rows::atomic(f3, f5, rs2)),
        _ => None,
    }
}

/// The instruction of a word whose row, if any, was found.
#[inline]
fn found(word: u32, format: Format, op: Option<Op>) -> Option<Inst>
    requires { FitsRow (fields_of word) format op }
    ensures value { result ≡ instruction_of word }
    ensures within { IfSome result (λ inst. NamesRegisters inst) }
{
    Some(read(word, format, op?))
}
