//! Programs of several harts, and calls that wait.
use crate::case::Case;
use crate::expected::{Expected, Inside};
use crate::given::{Given, assert_gives};
use guest_words::FaultName;
use std::test::Fail;

// lui x10,0x20; addi x11,x0,0; addi x12,x0,0; addi x13,x0,0; addi x17,x0,98; ecall
const WAITS: [u32; 6] = [
    0x00020537, 0x00000593, 0x00000613, 0x00000693, 0x06200893, 0x00000073,
];

// jal x1,0x1000c; addi x17,x0,93; ecall; 0x1000c: the same six
const WAITS_INSIDE: [u32; 9] = [
    0x00c000ef, 0x05d00893, 0x00000073, 0x00020537, 0x00000593, 0x00000613, 0x00000693, 0x06200893,
    0x00000073,
];

const STUCK: Given = Given {
    history: &[Expected::Ran(6), Expected::Stuck],
    out: &[],
    status: 71,
    report: "rescue-report 1\nsteps 6\nrecords 0\nrescues 0\nend stuck\n",
};

const BLOCKED: Given = Given {
    history: &[
        Expected::Ran(1),
        Expected::Rescued(
            0x1000c,
            FaultName::BlockedInPoint,
            0x10020,
            &[Inside::Ran(5)],
        ),
        Expected::Ran(1),
        Expected::Exit(255),
    ],
    out: &[],
    status: 255,
    report: "rescue-report 1\nsteps 7\nrecords 0\nrescues 1\n\
        rescue depth 0 hart 0 point 000000000001000c fault blocked-in-point pc 0000000000010020 \
        steps 5 records 0 code -1\nend exit 255\n",
};

#[test]
fn waiting(rt: HostRuntime) -> Result<(), Fail> {
    let mut case = Case::of(&WAITS);
    case.data = Some(&[]);
    assert_gives(&rt, rt.alloc(), &case, &STUCK)?;
    case.words = &WAITS_INSIDE;
    case.points = Some("[[point]]\nentry = 0x1000c\nreturns = -1\n");
    assert_gives(&rt, rt.alloc(), &case, &BLOCKED)?;
    Ok(())
}

// lui x8,0x20; lui x9,0x10; addi x9,x9,0x100; addi x10,x9,0; addi x11,x0,0; addi x17,x0,220
// ecall; beq x10,x0,0x10070; 0x10020: lw x5,4(x8); beq x5,x0,0x10020; jal x1,0x10094
// addi x18,x10,0; addi x10,x8,0; addi x11,x0,1; addi x12,x0,9; addi x17,x0,98; ecall
// add x18,x18,x10; addi x10,x9,0; addi x11,x0,0; addi x17,x0,220; ecall; beq x10,x0,0x10068
// add x10,x10,x18; addi x17,x0,94; ecall; 0x10068: addi x17,x0,93; ecall
// 0x10070: addi x5,x0,1; sw x5,4(x8); addi x10,x8,0; addi x11,x0,0; addi x12,x0,0; addi x13,x0,0
// addi x17,x0,98; ecall; jal x0,0x10068
// 0x10094: addi x10,x8,0; addi x11,x0,1; addi x12,x0,1; addi x17,x0,98; ecall; addi x10,x9,0
// addi x11,x0,0; addi x17,x0,220; ecall; ebreak
const SIBLINGS: [u32; 47] = [
    0x00020437, 0x000104b7, 0x10048493, 0x00048513, 0x00000593, 0x0dc00893, 0x00000073, 0x04050a63,
    0x00442283, 0xfe028ee3, 0x06c000ef, 0x00050913, 0x00040513, 0x00100593, 0x00900613, 0x06200893,
    0x00000073, 0x00a90933, 0x00048513, 0x00000593, 0x0dc00893, 0x00000073, 0x00050863, 0x01250533,
    0x05e00893, 0x00000073, 0x05d00893, 0x00000073, 0x00100293, 0x00542223, 0x00040513, 0x00000593,
    0x00000613, 0x00000693, 0x06200893, 0x00000073, 0xfd9ff06f, 0x00040513, 0x00100593, 0x00100613,
    0x06200893, 0x00000073, 0x00048513, 0x00000593, 0x0dc00893, 0x00000073, 0x00100073,
];

// Under the point the second hart is woken and a third is made. Afterwards the second waits again,
// so that another wake answers 1, and the tid is free again, so that another clone answers 3; the
// code is -1 + 1 + 3. Which hart is next is told by the words of the seed 0.
#[test]
fn siblings_taken_back(rt: HostRuntime) -> Result<(), Fail> {
    let mut case = Case::of(&SIBLINGS);
    case.data = Some(&[]);
    case.harts = Some(3);
    case.points = Some("[[point]]\nentry = 0x10094\nreturns = -1\n");
    let given = Given {
        history: &[
            Expected::Ran(64),
            Expected::RanBy(1, 9),
            Expected::Ran(3),
            Expected::Rescued(0x10094, FaultName::Breakpoint, 0x100b8, &[Inside::Ran(9)]),
            Expected::Ran(14),
            Expected::RanBy(1, 3),
            Expected::Exit(3),
        ],
        out: &[],
        status: 3,
        report: "rescue-report 1\nsteps 102\nrecords 0\nrescues 1\n\
            rescue depth 0 hart 0 point 0000000000010094 fault breakpoint pc 00000000000100b8 \
            steps 9 records 0 code -1\nend exit 3\n",
    };
    assert_gives(&rt, rt.alloc(), &case, &given)?;
    Ok(())
}

// lui x8,0x20; lr.w x5,(x8); sc.w x10,x8,(x8); lr.w x5,(x8); sc.d x11,x8,(x8); lr.w x5,(x8)
// jal x1,0x10034; slli x11,x11,1; add x10,x10,x11; add x10,x10,x12; addi x17,x0,93; ecall
// addi x0,x0,0; 0x10034: sc.w x12,x8,(x8); slli x12,x12,2; jalr x0,0(x1)
const RESERVES: [u32; 16] = [
    0x00020437, 0x100422af, 0x1884252f, 0x100422af, 0x188435af, 0x100422af, 0x01c000ef, 0x00159593,
    0x00b50533, 0x00c50533, 0x05d00893, 0x00000073, 0x00000013, 0x1884262f, 0x00261613, 0x00008067,
];

// Directly it holds; for another width it doesn't, nor after a point was entered.
const RESERVES_GIVES: Given = Given {
    history: &[
        Expected::Ran(7),
        Expected::Entered(0x10034),
        Expected::Ran(3),
        Expected::Ran(4),
        Expected::Exit(6),
    ],
    out: &[],
    status: 6,
    report: "rescue-report 1\nsteps 14\nrecords 0\nrescues 0\nend exit 6\n",
};

// lui x8,0x20; lui x10,0x10; addi x10,x10,0x100; addi x11,x0,0; addi x17,x0,220; ecall
// beq x10,x0,0x1004c; lr.w x5,(x8); addi x10,x8,8; addi x11,x0,0; addi x12,x0,0; addi x13,x0,0
// addi x17,x0,98; ecall; sc.w x10,x5,(x8); lbu x11,3(x8); add x10,x10,x11; addi x17,x0,94; ecall
// 0x1004c: addi x5,x0,4; sb x5,3(x8); addi x10,x8,8; addi x11,x0,1; addi x12,x0,1
// addi x17,x0,98; ecall; addi x17,x0,93; ecall
const SIBLING_STORES: [u32; 28] = [
    0x00020437, 0x00010537, 0x10050513, 0x00000593, 0x0dc00893, 0x00000073, 0x02050a63, 0x100422af,
    0x00840513, 0x00000593, 0x00000613, 0x00000693, 0x06200893, 0x00000073, 0x1854252f, 0x00344583,
    0x00b50533, 0x05e00893, 0x00000073, 0x00400293, 0x005401a3, 0x00840513, 0x00100593, 0x00100613,
    0x06200893, 0x00000073, 0x05d00893, 0x00000073,
];

// The first hart reserves a word and waits; the second stores its last byte and wakes the first.
const SIBLING_GIVES: Given = Given {
    history: &[
        Expected::Ran(14),
        Expected::RanBy(1, 10),
        Expected::Ran(4),
        Expected::Exit(5),
    ],
    out: &[],
    status: 5,
    report: "rescue-report 1\nsteps 28\nrecords 0\nrescues 0\nend exit 5\n",
};

#[test]
fn reservations(rt: HostRuntime) -> Result<(), Fail> {
    let mut case = Case::of(&RESERVES);
    case.data = Some(&[]);
    case.points = Some("[[point]]\nentry = 0x10034\nreturns = -1\n");
    assert_gives(&rt, rt.alloc(), &case, &RESERVES_GIVES)?;
    let mut sibling = Case::of(&SIBLING_STORES);
    sibling.data = Some(&[]);
    sibling.harts = Some(2);
    assert_gives(&rt, rt.alloc(), &sibling, &SIBLING_GIVES)?;
    Ok(())
}

#[test]
fn refused_clone(rt: HostRuntime) -> Result<(), Fail> {
    // addi x10,x0,0; addi x17,x0,220; ecall; addi x17,x0,93; ecall
    let case = Case::of(&[0x00000513, 0x0dc00893, 0x00000073, 0x05d00893, 0x00000073]);
    let given = Given {
        history: &[Expected::Ran(4), Expected::Exit(234)],
        out: &[],
        status: 234,
        report: "rescue-report 1\nsteps 4\nrecords 0\nrescues 0\nend exit 234\n",
    };
    assert_gives(&rt, rt.alloc(), &case, &given)?;
    Ok(())
}
