use crate::{encode, make};
use guest_words::{Inst, Op};
use rv_decode::decode;
use std::process::Abort;
use std::test::Fail;

/// A word by the ISA manual's formats, and its instruction, rd, rs1, rs2 and immediate: at least
/// one of each format.
const WORDS: [(u32, Op, u8, u8, u8, i32); 14] = [
    (0x80000fb7, Op::Lui, 31, 0, 0, -2147483648),
    (0x400002ef, Op::Jal, 5, 0, 0, 1024),
    (0x800000ef, Op::Jal, 1, 0, 0, -1048576),
    (0x00510093, Op::Addi, 1, 2, 0, 5),
    (0x80020183, Op::Lb, 3, 4, 0, -2048),
    (0x019300e3, Op::Beq, 0, 6, 25, 2048),
    (0x7e953fa3, Op::Sd, 0, 10, 9, 2047),
    (0x43f85793, Op::Srai, 15, 16, 0, 63),
    (0x41fb5a9b, Op::Sraiw, 21, 22, 0, 31),
    (0x019c0bb3, Op::Add, 23, 24, 25, 0),
    (0x00c6b5af, Op::AmoaddD, 11, 13, 12, 0),
    (0x0000000f, Op::Fence, 0, 0, 0, 0),
    (0x00000073, Op::Ecall, 0, 0, 0, 0),
    (0x00100073, Op::Ebreak, 0, 0, 0, 0),
];

#[test]
fn words_of_the_manual(rt: HostRuntime) {
    for &(word, op, rd, rs1, rs2, imm) in &WORDS {
        let inst = Inst {
            op,
            rd,
            rs1,
            rs2,
            imm,
        };
        assert_eq!(rt; encode(&inst), word);
    }
}

// The instruction whose word stands at a place of the file.
fn at(file: &[u8], place: usize) -> Option<Inst> {
    match file.get(place..place.wrapping_add(4)) {
        Some([a, b, c, d]) => decode(u32::from_le_bytes([*a, *b, *c, *d])),
        _ => None,
    }
}

#[test]
fn the_first_load(rt: HostRuntime) -> Result<(), Fail> {
    let made = make(rt.alloc(), 1)?;
    let file = made.elf.items();
    assert_eq!(rt; file.len(), 432);
    // lui x8,0x20 and addi x9,x0,0; and behind the last, nothing.
    let first = Inst {
        op: Op::Lui,
        rd: 8,
        rs1: 0,
        rs2: 0,
        imm: 0x20000,
    };
    let second = Inst {
        op: Op::Addi,
        rd: 9,
        rs1: 0,
        rs2: 0,
        imm: 0,
    };
    assert_eq!(rt; at(file, 176), Some(first));
    assert_eq!(rt; at(file, 180), Some(second));
    assert_eq!(rt; made.input.items().len(), 1000);
    assert!(rt; made.input.items().iter().all(|byte| *byte < 16));
    Ok(())
}
