//! Words through decode and their effects.

use crate::{alu, branch_taken, target};
use guest_words::{Class, Inst, Op};
use rv_decode::decode;
use rv_word::word_of;

const PC: u64 = 0x10000;

const MINUS_ONE: u64 = u64::MAX;

const LEAST: u64 = 0x8000_0000_0000_0000;

const LEAST_32: u64 = 0xffff_ffff_8000_0000;

/// Divisions and upper products at the ends of their types, as the ISA manual's M chapter has them.
const ENDS: [(Op, u64, u64, u64); 12] = [
    (Op::Div, LEAST, MINUS_ONE, LEAST),
    (Op::Rem, LEAST, MINUS_ONE, 0),
    (Op::Div, 5, 0, MINUS_ONE),
    (Op::Rem, 5, 0, 5),
    (Op::Divw, 0x8000_0000, 0xffff_ffff, LEAST_32),
    (Op::Remw, 0x8000_0000, 0xffff_ffff, 0),
    (Op::Divuw, 7, 0, MINUS_ONE),
    (Op::Remuw, 0x8000_0000, 0, LEAST_32),
    (Op::Mulhu, MINUS_ONE, MINUS_ONE, 0xffff_ffff_ffff_fffe),
    (Op::Mulhsu, MINUS_ONE, MINUS_ONE, MINUS_ONE),
    (Op::Mulh, MINUS_ONE, MINUS_ONE, 0),
    (Op::Mulh, LEAST, LEAST, 0x4000_0000_0000_0000),
];

/// The value that a register instruction puts into rd.
fn value(inst: &Inst, a: u64, b: u64) -> Option<u64> {
    if inst.op.class() == Class::Register {
        Some(alu(inst.op, PC, a, b, word_of(i64::from(inst.imm))))
    } else {
        None
    }
}

#[test]
fn division_at_the_ends(rt: HostRuntime) {
    for &(op, a, b, result) in &ENDS {
        let inst = Inst {
            op,
            rd: 5,
            rs1: 6,
            rs2: 7,
            imm: 0,
        };
        assert_eq!(rt; value(&inst, a, b), Some(result));
    }
}

/// auipc x5,0xfffff; addi x5,x5,-1; lui x5,0x80000; sraiw x5,x6,31; add x5,x6,x7
const WORDS: [(u32, u64, u64); 5] = [
    (0xfffff297, 0, 0xf000),
    (0xfff28293, 0, MINUS_ONE),
    (0x800002b7, 0, LEAST_32),
    (0x41f3529b, 0x8000_0000, MINUS_ONE),
    (0x007302b3, MINUS_ONE, 0),
];

#[test]
fn results_of_words(rt: HostRuntime) {
    for &(word, a, result) in &WORDS {
        let inst = decode(word).expect(&rt, "a register instruction");
        assert_eq!(rt; value(&inst, a, 1), Some(result));
    }
}

#[test]
fn branches_and_jumps(rt: HostRuntime) {
    assert!(rt; branch_taken(Op::Blt, MINUS_ONE, 0));
    assert!(rt; !branch_taken(Op::Bltu, MINUS_ONE, 0));
    let back = Inst {
        op: Op::Jal,
        rd: 0,
        rs1: 0,
        rs2: 0,
        imm: -4,
    };
    assert_eq!(rt;
        target(back.op, PC, 0, word_of(i64::from(back.imm))),
        0xfffc
    );
    let odd = Inst {
        op: Op::Jalr,
        rd: 1,
        rs1: 5,
        rs2: 0,
        imm: 3,
    };
    assert_eq!(rt;
        target(odd.op, PC, 0x20000, word_of(i64::from(odd.imm))),
        0x20002
    );
}
