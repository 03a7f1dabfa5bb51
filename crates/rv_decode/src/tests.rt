//! Words as the GNU assembler for riscv64 makes them, beside what they were made from.

use crate::decode;
use guest_words::{Inst, Op};
use std::process::Abort;

/// A word, and its instruction, rd, rs1, rs2 and immediate.
type Line = (u32, Op, u8, u8, u8, i32);

/// LUI, AUIPC and JAL.
const UPPER: [Line; 10] = [
    (0x000010b7, Op::Lui, 1, 0, 0, 4096),
    (0x7ffff137, Op::Lui, 2, 0, 0, 2147479552),
    (0x800001b7, Op::Lui, 3, 0, 0, -2147483648),
    (0x00002217, Op::Auipc, 4, 0, 0, 8192),
    (0x7ffff297, Op::Auipc, 5, 0, 0, 2147479552),
    (0xffffff97, Op::Auipc, 31, 0, 0, -4096),
    (0x002000ef, Op::Jal, 1, 0, 0, 2),
    (0x7fffff6f, Op::Jal, 30, 0, 0, 1048574),
    (0x800003ef, Op::Jal, 7, 0, 0, -1048576),
    (0xfffff46f, Op::Jal, 8, 0, 0, -2),
];

/// JALR and the loads.
const FROM_MEMORY: [Line; 24] = [
    (0x00118167, Op::Jalr, 2, 3, 0, 1),
    (0x7ff28267, Op::Jalr, 4, 5, 0, 2047),
    (0x80038367, Op::Jalr, 6, 7, 0, -2048),
    (0x00148403, Op::Lb, 8, 9, 0, 1),
    (0x7ff58503, Op::Lb, 10, 11, 0, 2047),
    (0x80068603, Op::Lb, 12, 13, 0, -2048),
    (0x00179703, Op::Lh, 14, 15, 0, 1),
    (0x7ff89803, Op::Lh, 16, 17, 0, 2047),
    (0x80099903, Op::Lh, 18, 19, 0, -2048),
    (0x001aaa03, Op::Lw, 20, 21, 0, 1),
    (0x7ffbab03, Op::Lw, 22, 23, 0, 2047),
    (0x800cac03, Op::Lw, 24, 25, 0, -2048),
    (0x001dbd03, Op::Ld, 26, 27, 0, 1),
    (0x7ffebe03, Op::Ld, 28, 29, 0, 2047),
    (0x800fbf03, Op::Ld, 30, 31, 0, -2048),
    (0x00114083, Op::Lbu, 1, 2, 0, 1),
    (0x7ff24183, Op::Lbu, 3, 4, 0, 2047),
    (0x80034283, Op::Lbu, 5, 6, 0, -2048),
    (0x00145383, Op::Lhu, 7, 8, 0, 1),
    (0x7ff55483, Op::Lhu, 9, 10, 0, 2047),
    (0x80065583, Op::Lhu, 11, 12, 0, -2048),
    (0x00176683, Op::Lwu, 13, 14, 0, 1),
    (0x7ff86783, Op::Lwu, 15, 16, 0, 2047),
    (0x80096883, Op::Lwu, 17, 18, 0, -2048),
];

/// The branches and the stores.
const WITHOUT_RD: [Line; 30] = [
    (0x00d60163, Op::Beq, 0, 12, 13, 2),
    (0x7ef70fe3, Op::Beq, 0, 14, 15, 4094),
    (0x81180063, Op::Beq, 0, 16, 17, -4096),
    (0x01391163, Op::Bne, 0, 18, 19, 2),
    (0x7f5a1fe3, Op::Bne, 0, 20, 21, 4094),
    (0x817b1063, Op::Bne, 0, 22, 23, -4096),
    (0x019c4163, Op::Blt, 0, 24, 25, 2),
    (0x7fbd4fe3, Op::Blt, 0, 26, 27, 4094),
    (0x81de4063, Op::Blt, 0, 28, 29, -4096),
    (0x01ff5163, Op::Bge, 0, 30, 31, 2),
    (0x7e20dfe3, Op::Bge, 0, 1, 2, 4094),
    (0x8041d063, Op::Bge, 0, 3, 4, -4096),
    (0x0062e163, Op::Bltu, 0, 5, 6, 2),
    (0x7e83efe3, Op::Bltu, 0, 7, 8, 4094),
    (0x80a4e063, Op::Bltu, 0, 9, 10, -4096),
    (0x00c5f163, Op::Bgeu, 0, 11, 12, 2),
    (0x7ee6ffe3, Op::Bgeu, 0, 13, 14, 4094),
    (0x8107f063, Op::Bgeu, 0, 15, 16, -4096),
    (0x013a02a3, Op::Sb, 0, 20, 19, 5),
    (0x7f5b0fa3, Op::Sb, 0, 22, 21, 2047),
    (0x817c0023, Op::Sb, 0, 24, 23, -2048),
    (0x019d12a3, Op::Sh, 0, 26, 25, 5),
    (0x7fbe1fa3, Op::Sh, 0, 28, 27, 2047),
    (0x81df1023, Op::Sh, 0, 30, 29, -2048),
    (0x01f0a2a3, Op::Sw, 0, 1, 31, 5),
    (0x7e21afa3, Op::Sw, 0, 3, 2, 2047),
    (0x8042a023, Op::Sw, 0, 5, 4, -2048),
    (0x0063b2a3, Op::Sd, 0, 7, 6, 5),
    (0x7e84bfa3, Op::Sd, 0, 9, 8, 2047),
    (0x80a5b023, Op::Sd, 0, 11, 10, -2048),
];

/// Sums and tests with an immediate, and shifts.
const IMMEDIATE: [Line; 39] = [
    (0x00790893, Op::Addi, 17, 18, 0, 7),
    (0x7ffa0993, Op::Addi, 19, 20, 0, 2047),
    (0x800b0a93, Op::Addi, 21, 22, 0, -2048),
    (0x007c2b93, Op::Slti, 23, 24, 0, 7),
    (0x7ffd2c93, Op::Slti, 25, 26, 0, 2047),
    (0x800e2d93, Op::Slti, 27, 28, 0, -2048),
    (0x007f3e93, Op::Sltiu, 29, 30, 0, 7),
    (0x7ff0bf93, Op::Sltiu, 31, 1, 0, 2047),
    (0x8001b113, Op::Sltiu, 2, 3, 0, -2048),
    (0x0072c213, Op::Xori, 4, 5, 0, 7),
    (0x7ff3c313, Op::Xori, 6, 7, 0, 2047),
    (0x8004c413, Op::Xori, 8, 9, 0, -2048),
    (0x0075e513, Op::Ori, 10, 11, 0, 7),
    (0x7ff6e613, Op::Ori, 12, 13, 0, 2047),
    (0x8007e713, Op::Ori, 14, 15, 0, -2048),
    (0x0078f813, Op::Andi, 16, 17, 0, 7),
    (0x7ff9f913, Op::Andi, 18, 19, 0, 2047),
    (0x800afa13, Op::Andi, 20, 21, 0, -2048),
    (0x007b8b1b, Op::Addiw, 22, 23, 0, 7),
    (0x7ffc8c1b, Op::Addiw, 24, 25, 0, 2047),
    (0x800d8d1b, Op::Addiw, 26, 27, 0, -2048),
    (0x000e9e13, Op::Slli, 28, 29, 0, 0),
    (0x021f9f13, Op::Slli, 30, 31, 0, 33),
    (0x03f11093, Op::Slli, 1, 2, 0, 63),
    (0x00025193, Op::Srli, 3, 4, 0, 0),
    (0x02135293, Op::Srli, 5, 6, 0, 33),
    (0x03f45393, Op::Srli, 7, 8, 0, 63),
    (0x40055493, Op::Srai, 9, 10, 0, 0),
    (0x42165593, Op::Srai, 11, 12, 0, 33),
    (0x43f75693, Op::Srai, 13, 14, 0, 63),
    (0x0008179b, Op::Slliw, 15, 16, 0, 0),
    (0x0119189b, Op::Slliw, 17, 18, 0, 17),
    (0x01fa199b, Op::Slliw, 19, 20, 0, 31),
    (0x000b5a9b, Op::Srliw, 21, 22, 0, 0),
    (0x011c5b9b, Op::Srliw, 23, 24, 0, 17),
    (0x01fd5c9b, Op::Srliw, 25, 26, 0, 31),
    (0x400e5d9b, Op::Sraiw, 27, 28, 0, 0),
    (0x411f5e9b, Op::Sraiw, 29, 30, 0, 17),
    (0x41f0df9b, Op::Sraiw, 31, 1, 0, 31),
];

/// Results of two registers.
const REGISTER: [Line; 28] = [
    (0x00418133, Op::Add, 2, 3, 4, 0),
    (0x007312b3, Op::Sll, 5, 6, 7, 0),
    (0x00a4a433, Op::Slt, 8, 9, 10, 0),
    (0x00d635b3, Op::Sltu, 11, 12, 13, 0),
    (0x0107c733, Op::Xor, 14, 15, 16, 0),
    (0x013958b3, Op::Srl, 17, 18, 19, 0),
    (0x016aea33, Op::Or, 20, 21, 22, 0),
    (0x019c7bb3, Op::And, 23, 24, 25, 0),
    (0x41cd8d33, Op::Sub, 26, 27, 28, 0),
    (0x41ff5eb3, Op::Sra, 29, 30, 31, 0),
    (0x023100b3, Op::Mul, 1, 2, 3, 0),
    (0x02629233, Op::Mulh, 4, 5, 6, 0),
    (0x029423b3, Op::Mulhsu, 7, 8, 9, 0),
    (0x02c5b533, Op::Mulhu, 10, 11, 12, 0),
    (0x02f746b3, Op::Div, 13, 14, 15, 0),
    (0x0328d833, Op::Divu, 16, 17, 18, 0),
    (0x035a69b3, Op::Rem, 19, 20, 21, 0),
    (0x038bfb33, Op::Remu, 22, 23, 24, 0),
    (0x01bd0cbb, Op::Addw, 25, 26, 27, 0),
    (0x01ee9e3b, Op::Sllw, 28, 29, 30, 0),
    (0x0020dfbb, Op::Srlw, 31, 1, 2, 0),
    (0x405201bb, Op::Subw, 3, 4, 5, 0),
    (0x4083d33b, Op::Sraw, 6, 7, 8, 0),
    (0x02b504bb, Op::Mulw, 9, 10, 11, 0),
    (0x02e6c63b, Op::Divw, 12, 13, 14, 0),
    (0x031857bb, Op::Divuw, 15, 16, 17, 0),
    (0x0349e93b, Op::Remw, 18, 19, 20, 0),
    (0x037b7abb, Op::Remuw, 21, 22, 23, 0),
];

/// The atomic rows, with and without their two free bits.
const ATOMIC: [Line; 22] = [
    (0x100d2c2f, Op::LrW, 24, 26, 0, 0),
    (0x1dceadaf, Op::ScW, 27, 29, 28, 0),
    (0x0bf0af2f, Op::AmoswapW, 30, 1, 31, 0),
    (0x0632212f, Op::AmoaddW, 2, 4, 3, 0),
    (0x2063a2af, Op::AmoxorW, 5, 7, 6, 0),
    (0x6495242f, Op::AmoandW, 8, 10, 9, 0),
    (0x42c6a5af, Op::AmoorW, 11, 13, 12, 0),
    (0x86f8272f, Op::AmominW, 14, 16, 15, 0),
    (0xa129a8af, Op::AmomaxW, 17, 19, 18, 0),
    (0xc55b2a2f, Op::AmominuW, 20, 22, 21, 0),
    (0xe38cabaf, Op::AmomaxuW, 23, 25, 24, 0),
    (0x160e3d2f, Op::LrD, 26, 28, 0, 0),
    (0x19efbeaf, Op::ScD, 29, 31, 30, 0),
    (0x0c21b0af, Op::AmoswapD, 1, 3, 2, 0),
    (0x0253322f, Op::AmoaddD, 4, 6, 5, 0),
    (0x2684b3af, Op::AmoxorD, 7, 9, 8, 0),
    (0x60b6352f, Op::AmoandD, 10, 12, 11, 0),
    (0x44e7b6af, Op::AmoorD, 13, 15, 14, 0),
    (0x8319382f, Op::AmominD, 16, 18, 17, 0),
    (0xa74ab9af, Op::AmomaxD, 19, 21, 20, 0),
    (0xc17c3b2f, Op::AmominuD, 22, 24, 23, 0),
    (0xe5adbcaf, Op::AmomaxuD, 25, 27, 26, 0),
];

/// FENCE with some of its free bits, ECALL and EBREAK.
const BARE: [Line; 6] = [
    (0x0ff0000f, Op::Fence, 0, 0, 0, 0),
    (0x0310000f, Op::Fence, 0, 0, 0, 0),
    (0x8330000f, Op::Fence, 0, 0, 0, 0),
    (0x0000000f, Op::Fence, 0, 0, 0, 0),
    (0x00000073, Op::Ecall, 0, 0, 0, 0),
    (0x00100073, Op::Ebreak, 0, 0, 0, 0),
];
/// Nothing, compressed words, all bits set, and a word of more than 32 bits.
const OTHER_LENGTHS: [u32; 5] = [0x00000000, 0x00000001, 0x8082a001, 0xffffffff, 0x0000003f];

/// FENCE.I, CSRRS, CSRRWI, MRET, WFI, and loads, stores and sums of floating point.
const OTHER_EXTENSIONS: [u32; 9] = [
    0x0000100f, 0xc0002573, 0x30045073, 0x30200073, 0x10500073, 0x0005b507, 0x00a5b027, 0x02c5f553,
    0x02c5f543,
];

/// Rows with another f3, f5, f6, f7 or rs2 than they have.
const RESERVED_FIELDS: [u32; 14] = [
    0x04c58533, 0x42c58533, 0x40c59533, 0x02c5953b, 0x04155513, 0x44155513, 0x0215551b, 0x4215551b,
    0x00051067, 0x00057503, 0x00a54023, 0x00a52063, 0x10a5252f, 0x00a5452f,
];

fn reads(rt: &impl Abort, lines: &[Line]) {
    for &(word, op, rd, rs1, rs2, imm) in lines {
        let inst = Inst {
            op,
            rd,
            rs1,
            rs2,
            imm,
        };
        assert_eq!(rt; decode(word), Some(inst));
    }
}

fn refuses(rt: &impl Abort, words: &[u32]) {
    for &word in words {
        assert_eq!(rt; decode(word), None);
    }
}

#[test]
fn every_row_as_assembled(rt: HostRuntime) {
    reads(&rt, &UPPER);
    reads(&rt, &FROM_MEMORY);
    reads(&rt, &WITHOUT_RD);
    reads(&rt, &IMMEDIATE);
    reads(&rt, &REGISTER);
    reads(&rt, &ATOMIC);
    reads(&rt, &BARE);
}

#[test]
fn words_of_no_row(rt: HostRuntime) {
    refuses(&rt, &OTHER_LENGTHS);
    refuses(&rt, &OTHER_EXTENSIONS);
    refuses(&rt, &RESERVED_FIELDS);
}
