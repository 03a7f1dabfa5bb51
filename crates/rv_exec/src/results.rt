ghost use Rattle.guest_words.specs.Effects.{class_of, value_of};
ghost use Rattle.std.specs.Prelude.{◌≡◌};

use guest_words::{Class, Op};
use rv_word::{
    difference, high_mixed, high_signed, high_unsigned, product, quotient, quotient_32,
    quotient_unsigned, quotient_unsigned_32, remainder, remainder_32, remainder_unsigned,
    remainder_unsigned_32, shift_left, shift_left_32, shift_right, shift_right_32,
    shift_right_signed, shift_right_signed_32, signed, sum, sx32, word_of,
};

/// The value that a register instruction puts into rd, where rs1 is a, rs2 is b and the immediate
/// is i.
#[inline(always)]
pub fn alu(op: Op, pc: u64, a: u64, b: u64, i: u64) -> u64
    requires { class_of op ≡ Class.Register }
    ensures { result ≡ value_of op pc a b i }
{
    match op {
        Op::Lui => i,
        Op::Auipc => sum(pc, i),
        Op::Addi => sum(a, i),
        Op::Slti => u64::from(signed(a) < signed(i)),
        Op::Sltiu => u64::from(a < i),
        Op::Xori => a ^ i,
        Op::Ori => a | i,
        Op::Andi => a & i,
        Op::Slli => shift_left(a, i),
        Op::Srli => shift_right(a, i),
        Op::Srai => shift_right_signed(a, i),
        Op::Addiw => sx32(sum(a, i)),
        Op::Slliw => shift_left_32(a, i),
        Op::Srliw => shift_right_32(a, i),
        Op::Sraiw => shift_right_signed_32(a, i),
        Op::Add => sum(a, b),
        Op::Sll => shift_left(a, b),
        Op::Slt => u64::from(signed(a) < signed(b)),
        Op::Sltu => u64::from(a < b),
        Op::Xor => a ^ b,
        Op::Srl => shift_right(a, b),
        Op::Or => a | b,
        Op::And => a & b,
        Op::Sub => difference(a, b),
        Op::Sra => shift_right_signed(a, b),
        Op::Mul => product(a, b),
        Op::Mulh => high_signed(a, b),
        Op::Mulhsu => high_mixed(a, b),
        Op::Mulhu => high_unsigned(a, b),
        Op::Div => quotient(a, b),
        Op::Divu => quotient_unsigned(a, b),
        Op::Rem => remainder(a, b),
        Op::Remu => remainder_unsigned(a, b),
        Op::Addw => sx32(sum(a, b)),
        Op::Sllw => shift_left_32(a, b),
        Op::Srlw => shift_right_32(a, b),
        Op::Subw => sx32(difference(a, b)),
        Op::Sraw => shift_right_signed_32(a, b),
        Op::Mulw => sx32(product(a, b)),
        Op::Divw => quotient_32(a, b),
        Op::Divuw => quotient_unsigned_32(a, b),
        Op::Remw => remainder_32(a, b),
        Op::Remuw => remainder_unsigned_32(a, b),
        _ => unreachable!(),
    }
}
