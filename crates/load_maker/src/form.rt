ghost use Rattle.std.specs.Prelude.{◌≡◌, ◌≢◌, ◌+◌, ◌^◌, ◌<◌, true, false};
ghost use Rattle.guest_words.specs.Effects.{class_of};
ghost use Rattle.load_maker.specs.Encoding.{form_of, is_atomic, is_multiply, is_word, room_of};

use guest_words::{Class, Format, Op};

/// How an instruction is laid out, and the bits of its word that its row of the table names.
pub(crate) fn form(op: Op) -> (Format, u32)
    ensures value { result ≡ form_of op }
    ensures within { result.1 + room_of result.0 < 2 ^ 32 }
{
    match op.class() {
        Class::Register => register_form(op),
        Class::LoadReserved { .. } | Class::StoreConditional { .. } | Class::Atomic { .. } => {
            atomic_form(op)
        }
        _ => control_form(op),
    }
}

/// The same of the base's jumps, branches, loads, stores and calls.
fn control_form(op: Op) -> (Format, u32)
    requires register { class_of op ≢ Class.Register }
    requires atomic { is_atomic (class_of op) ≡ false }
    ensures value { result ≡ form_of op }
    ensures within { result.1 + room_of result.0 < 2 ^ 32 }
{
    match op {
        Op::Jal => (Format::Jump, 0x0000_006f),
        Op::Jalr => (Format::Immediate, 0x0000_0067),
        Op::Beq => (Format::Branch, 0x0000_0063),
        Op::Bne => (Format::Branch, 0x0000_1063),
        Op::Blt => (Format::Branch, 0x0000_4063),
        Op::Bge => (Format::Branch, 0x0000_5063),
        Op::Bltu => (Format::Branch, 0x0000_6063),
        Op::Bgeu => (Format::Branch, 0x0000_7063),
        Op::Lb => (Format::Immediate, 0x0000_0003),
        Op::Lh => (Format::Immediate, 0x0000_1003),
        Op::Lw => (Format::Immediate, 0x0000_2003),
        Op::Ld => (Format::Immediate, 0x0000_3003),
        Op::Lbu => (Format::Immediate, 0x0000_4003),
        Op::Lhu => (Format::Immediate, 0x0000_5003),
        Op::Lwu => (Format::Immediate, 0x0000_6003),
        Op::Sb => (Format::Store, 0x0000_0023),
        Op::Sh => (Format::Store, 0x0000_1023),
        Op::Sw => (Format::Store, 0x0000_2023),
        Op::Sd => (Format::Store, 0x0000_3023),
        Op::Fence => (Format::Bare, 0x0000_000f),
        Op::Ecall => (Format::Bare, 0x0000_0073),
        Op::Ebreak => (Format::Bare, 0x0010_0073),
        _ => unreachable!(),
    }
}

/// The same of the base's arithmetic, and of what follows on it.
fn register_form(op: Op) -> (Format, u32)
    requires register { class_of op ≡ Class.Register }
    ensures value { result ≡ form_of op }
    ensures within { result.1 + room_of result.0 < 2 ^ 32 }
{
    match op {
        Op::Lui => (Format::Upper, 0x0000_0037),
        Op::Auipc => (Format::Upper, 0x0000_0017),
        Op::Addi => (Format::Immediate, 0x0000_0013),
        Op::Slti => (Format::Immediate, 0x0000_2013),
        Op::Sltiu => (Format::Immediate, 0x0000_3013),
        Op::Xori => (Format::Immediate, 0x0000_4013),
        Op::Ori => (Format::Immediate, 0x0000_6013),
        Op::Andi => (Format::Immediate, 0x0000_7013),
        Op::Slli => (Format::Shift, 0x0000_1013),
        Op::Srli => (Format::Shift, 0x0000_5013),
        Op::Srai => (Format::Shift, 0x4000_5013),
        Op::Add => (Format::Register, 0x0000_0033),
        Op::Sll => (Format::Register, 0x0000_1033),
        Op::Slt => (Format::Register, 0x0000_2033),
        Op::Sltu => (Format::Register, 0x0000_3033),
        Op::Xor => (Format::Register, 0x0000_4033),
        Op::Srl => (Format::Register, 0x0000_5033),
        Op::Or => (Format::Register, 0x0000_6033),
        Op::And => (Format::Register, 0x0000_7033),
        Op::Sub => (Format::Register, 0x4000_0033),
        Op::Sra => (Format::Register, 0x4000_5033),
        Op::Addiw | Op::Slliw | Op::Srliw | Op::Sraiw => word_form(op),
        Op::Addw | Op::Sllw | Op::Srlw | Op::Subw | Op::Sraw => word_form(op),
        _ => multiply_form(op),
    }
}

/// The same of the base's arithmetic of words of 32 bits.
fn word_form(op: Op) -> (Format, u32)
    requires word { is_word op ≡ true }
    ensures value { result ≡ form_of op }
    ensures within { result.1 + room_of result.0 < 2 ^ 32 }
{
    match op {
        Op::Addiw => (Format::Immediate, 0x0000_001b),
        Op::Slliw => (Format::WordShift, 0x0000_101b),
        Op::Srliw => (Format::WordShift, 0x0000_501b),
        Op::Sraiw => (Format::WordShift, 0x4000_501b),
        Op::Addw => (Format::Register, 0x0000_003b),
        Op::Sllw => (Format::Register, 0x0000_103b),
        Op::Srlw => (Format::Register, 0x0000_503b),
        Op::Subw => (Format::Register, 0x4000_003b),
        Op::Sraw => (Format::Register, 0x4000_503b),
        _ => unreachable!(),
    }
}

/// The same of multiplications and divisions (M).
fn multiply_form(op: Op) -> (Format, u32)
    requires multiply { is_multiply op ≡ true }
    ensures value { result ≡ form_of op }
    ensures within { result.1 + room_of result.0 < 2 ^ 32 }
{
    match op {
        Op::Mul => (Format::Register, 0x0200_0033),
        Op::Mulh => (Format::Register, 0x0200_1033),
        Op::Mulhsu => (Format::Register, 0x0200_2033),
        Op::Mulhu => (Format::Register, 0x0200_3033),
        Op::Div => (Format::Register, 0x0200_4033),
        Op::Divu => (Format::Register, 0x0200_5033),
        Op::Rem => (Format::Register, 0x0200_6033),
        Op::Remu => (Format::Register, 0x0200_7033),
        Op::Mulw => (Format::Register, 0x0200_003b),
        Op::Divw => (Format::Register, 0x0200_403b),
        Op::Divuw => (Format::Register, 0x0200_503b),
        Op::Remw => (Format::Register, 0x0200_603b),
        Op::Remuw => (Format::Register, 0x0200_703b),
        _ => unreachable!(),
    }
}

/// The same of atomic accesses to memory (A).
fn atomic_form(op: Op) -> (Format, u32)
    requires atomic { is_atomic (class_of op) ≡ true }
    ensures value { result ≡ form_of op }
    ensures within { result.1 + room_of result.0 < 2 ^ 32 }
{
    match op {
        Op::LrW => (Format::Register, 0x1000_202f),
        Op::ScW => (Format::Register, 0x1800_202f),
        Op::AmoswapW => (Format::Register, 0x0800_202f),
        Op::AmoaddW => (Format::Register, 0x0000_202f),
        Op::AmoxorW => (Format::Register, 0x2000_202f),
        Op::AmoandW => (Format::Register, 0x6000_202f),
        Op::AmoorW => (Format::Register, 0x4000_202f),
        Op::AmominW => (Format::Register, 0x8000_202f),
        Op::AmomaxW => (Format::Register, 0xa000_202f),
        Op::AmominuW => (Format::Register, 0xc000_202f),
        Op::AmomaxuW => (Format::Register, 0xe000_202f),
        Op::LrD => (Format::Register, 0x1000_302f),
        Op::ScD => (Format::Register, 0x1800_302f),
        Op::AmoswapD => (Format::Register, 0x0800_302f),
        Op::AmoaddD => (Format::Register, 0x0000_302f),
        Op::AmoxorD => (Format::Register, 0x2000_302f),
        Op::AmoandD => (Format::Register, 0x6000_302f),
        Op::AmoorD => (Format::Register, 0x4000_302f),
        Op::AmominD => (Format::Register, 0x8000_302f),
        Op::AmomaxD => (Format::Register, 0xa000_302f),
        Op::AmominuD => (Format::Register, 0xc000_302f),
        Op::AmomaxuD => (Format::Register, 0xe000_302f),
        _ => unreachable!(),
    }
}
