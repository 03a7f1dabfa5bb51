//! The rows of each opcode, by the other fields that tell them apart.
#![tactic(auto, unfolding(crate::specs::Rows::FitsRow, crate::specs::Rows::row_at))]

ghost use Rattle.rv_decode.specs.Rows.{Fields, FitsRow};
ghost use Rattle.std.specs.Prelude.{◌≡◌, ◌≢◌, ◌⊎◌};

use guest_words::{Format, Op};

/// The row of opcode 67.
#[inline]
pub(crate) fn jalr(f3: u32) -> Option<Op>
    ensures { (w : Fields) → FitsRow (record w { opcode = 0x67; f3 = f3 }) Format.Immediate result }
{
    match f3 {
        0 => Some(Op::Jalr),
        _ => None,
    }
}

/// The row of opcode 63.
#[inline]
pub(crate) fn branch(f3: u32) -> Option<Op>
    ensures { (w : Fields) → FitsRow (record w { opcode = 0x63; f3 = f3 }) Format.Branch result }
{
    match f3 {
        0 => Some(Op::Beq),
        1 => Some(Op::Bne),
        4 => Some(Op::Blt),
        5 => Some(Op::Bge),
        6 => Some(Op::Bltu),
        7 => Some(Op::Bgeu),
        _ => None,
    }
}

/// The row of opcode 03.
#[inline]
pub(crate) fn load(f3: u32) -> Option<Op>
    ensures { (w : Fields) → FitsRow (record w { opcode = 0x03; f3 = f3 }) Format.Immediate result }
{
    match f3 {
        0 => Some(Op::Lb),
        1 => Some(Op::Lh),
        2 => Some(Op::Lw),
        3 => Some(Op::Ld),
        4 => Some(Op::Lbu),
        5 => Some(Op::Lhu),
        6 => Some(Op::Lwu),
        _ => None,
    }
}

/// The row of opcode 23.
#[inline]
pub(crate) fn store(f3: u32) -> Option<Op>
    ensures { (w : Fields) → FitsRow (record w { opcode = 0x23; f3 = f3 }) Format.Store result }
{
    match f3 {
        0 => Some(Op::Sb),
        1 => Some(Op::Sh),
        2 => Some(Op::Sw),
        3 => Some(Op::Sd),
        _ => None,
    }
}

/// The row of opcode 13, but for shifts.
#[inline]
pub(crate) fn immediate(f3: u32) -> Option<Op>
    requires left { f3 ≢ 1 }
    requires right { f3 ≢ 5 }
    ensures { (w : Fields) → FitsRow (record w { opcode = 0x13; f3 = f3 }) Format.Immediate result }
{
    match f3 {
        0 => Some(Op::Addi),
        2 => Some(Op::Slti),
        3 => Some(Op::Sltiu),
        4 => Some(Op::Xori),
        6 => Some(Op::Ori),
        7 => Some(Op::Andi),
        _ => None,
    }
}

/// The row of opcode 13 that shifts.
#[inline]
pub(crate) fn shift(f3: u32, f6: u32) -> Option<Op>
    requires { (f3 ≡ 1) ⊎ (f3 ≡ 5) }
    ensures { (w : Fields)
        → FitsRow (record w { opcode = 0x13; f3 = f3; f6 = f6 }) Format.Shift result }
{
    match (f3, f6) {
        (1, 0x00) => Some(Op::Slli),
        (5, 0x00) => Some(Op::Srli),
        (5, 0x10) => Some(Op::Srai),
        _ => None,
    }
}

/// The row of opcode 1b that shifts.
#[inline]
pub(crate) fn word_shift(f3: u32, f7: u32) -> Option<Op>
    requires { f3 ≢ 0 }
    ensures { (w : Fields)
        → FitsRow (record w { opcode = 0x1b; f3 = f3; f7 = f7 }) Format.WordShift result }
{
    match (f3, f7) {
        (1, 0x00) => Some(Op::Slliw),
        (5, 0x00) => Some(Op::Srliw),
        (5, 0x20) => Some(Op::Sraiw),
        _ => None,
    }
}

/// The row of opcode 33.
#[inline]
pub(crate) fn register(f3: u32, f7: u32) -> Option<Op>
    ensures { (w : Fields)
        → FitsRow (record w { opcode = 0x33; f3 = f3; f7 = f7 }) Format.Register result }
{
    match (f3, f7) {
        (0, 0x00) => Some(Op::Add),
        (1, 0x00) => Some(Op::Sll),
        (2, 0x00) => Some(Op::Slt),
        (3, 0x00) => Some(Op::Sltu),
        (4, 0x00) => Some(Op::Xor),
        (5, 0x00) => Some(Op::Srl),
        (6, 0x00) => Some(Op::Or),
        (7, 0x00) => Some(Op::And),
        (0, 0x20) => Some(Op::Sub),
        (5, 0x20) => Some(Op::Sra),
        (0, 0x01) => Some(Op::Mul),
        (1, 0x01) => Some(Op::Mulh),
        (2, 0x01) => Some(Op::Mulhsu),
        (3, 0x01) => Some(Op::Mulhu),
        (4, 0x01) => Some(Op::Div),
        (5, 0x01) => Some(Op::Divu),
        (6, 0x01) => Some(Op::Rem),
        (7, 0x01) => Some(Op::Remu),
        _ => None,
    }
}

/// The row of opcode 3b.
#[inline]
pub(crate) fn word_register(f3: u32, f7: u32) -> Option<Op>
    ensures { (w : Fields)
        → FitsRow (record w { opcode = 0x3b; f3 = f3; f7 = f7 }) Format.Register result }
{
    match (f3, f7) {
        (0, 0x00) => Some(Op::Addw),
        (1, 0x00) => Some(Op::Sllw),
        (5, 0x00) => Some(Op::Srlw),
        (0, 0x20) => Some(Op::Subw),
        (5, 0x20) => Some(Op::Sraw),
        (0, 0x01) => Some(Op::Mulw),
        (4, 0x01) => Some(Op::Divw),
        (5, 0x01) => Some(Op::Divuw),
        (6, 0x01) => Some(Op::Remw),
        (7, 0x01) => Some(Op::Remuw),
        _ => None,
    }
}

/// The row of opcode 0f.
#[inline]
pub(crate) fn fence(f3: u32) -> Option<Op>
    ensures { (w : Fields) → FitsRow (record w { opcode = 0x0f; f3 = f3 }) Format.Bare result }
{
    match f3 {
        0 => Some(Op::Fence),
        _ => None,
    }
}

/// The row of opcode 73.
#[inline]
pub(crate) fn system(word: u32) -> Option<Op>
    ensures { (w : Fields) → FitsRow (record w { opcode = 0x73; whole = word }) Format.Bare result }
{
    match word {
        0x0000_0073 => Some(Op::Ecall),
        0x0010_0073 => Some(Op::Ebreak),
        _ => None,
    }
}

/// The row of opcode 2f on 4 bytes.
#[inline]
fn atomic_word(f5: u32, rs2: u32) -> Option<Op>
    ensures { (w : Fields)
        → FitsRow (record w { opcode = 0x2f; f3 = 2; f5 = f5; rs2 = rs2 }) Format.Register result }
{
    match (f5, rs2) {
        (0x02, 0) => Some(Op::LrW),
        (0x03, _) => Some(Op::ScW),
        (0x01, _) => Some(Op::AmoswapW),
        (0x00, _) => Some(Op::AmoaddW),
        (0x04, _) => Some(Op::AmoxorW),
        (0x0c, _) => Some(Op::AmoandW),
        (0x08, _) => Some(Op::AmoorW),
        (0x10, _) => Some(Op::AmominW),
        (0x14, _) => Some(Op::AmomaxW),
        (0x18, _) => Some(Op::AmominuW),
        (0x1c, _) => Some(Op::AmomaxuW),
        _ => None,
    }
}

/// The row of opcode 2f on 8 bytes.
#[inline]
fn atomic_double(f5: u32, rs2: u32) -> Option<Op>
    ensures { (w : Fields)
        → FitsRow (record w { opcode = 0x2f; f3 = 3; f5 = f5; rs2 = rs2 }) Format.Register result }
{
    match (f5, rs2) {
        (0x02, 0) => Some(Op::LrD),
        (0x03, _) => Some(Op::ScD),
        (0x01, _) => Some(Op::AmoswapD),
        (0x00, _) => Some(Op::AmoaddD),
        (0x04, _) => Some(Op::AmoxorD),
        (0x0c, _) => Some(Op::AmoandD),
        (0x08, _) => Some(Op::AmoorD),
        (0x10, _) => Some(Op::AmominD),
        (0x14, _) => Some(Op::AmomaxD),
        (0x18, _) => Some(Op::AmominuD),
        (0x1c, _) => Some(Op::AmomaxuD),
        _ => None,
    }
}

/// The row of opcode 2f.
#[inline]
pub(crate) fn atomic(f3: u32, f5: u32, rs2: u32) -> Option<Op>
    ensures { (w : Fields)
        → FitsRow (record w { opcode = 0x2f; f3 = f3; f5 = f5; rs2 = rs2 }) Format.Register result }
{
    match f3 {
        2 => atomic_word(f5, rs2),
        3 => atomic_double(f5, rs2),
        _ => None,
    }
}
