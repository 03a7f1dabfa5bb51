//! Points under points, and runs that end under one.
use crate::case::Case;
use crate::expected::{Expected, Inside};
use crate::given::{Given, assert_gives};
use guest_words::{FaultName, Way};
use std::test::Fail;

// jal x1,0x10010; addi x17,x0,93; ecall; addi x0,x0,0
// 0x10010: jal x0,0x10014; 0x10014: ld x7,0(x0)
const TAIL: [u32; 6] = [
    0x010000ef, 0x05d00893, 0x00000073, 0x00000013, 0x0040006f, 0x00003383,
];

// The inner point returns its own code, and both frames close.
#[test]
fn tail_call(rt: HostRuntime) -> Result<(), Fail> {
    let mut case = Case::of(&TAIL);
    case.points = Some(
        "[[point]]\nentry = 0x10010\nreturns = -1\n[[point]]\nentry = 0x10014\nreturns = -2\n",
    );
    let given = Given {
        history: &[
            Expected::Ran(1),
            Expected::Entered(0x10010),
            Expected::Ran(1),
            Expected::Rescued(0x10014, FaultName::LoadRights, 0x10014, &[]),
            Expected::Ran(1),
            Expected::Exit(254),
        ],
        out: &[],
        status: 254,
        report: "rescue-report 1\nsteps 3\nrecords 0\nrescues 1\n\
            rescue depth 0 hart 0 point 0000000000010014 fault load-rights pc 0000000000010014 \
            steps 0 records 0 code -2\nend exit 254\n",
    };
    assert_gives(&rt, rt.alloc(), &case, &given)?;
    Ok(())
}

// lui x8,0x20; jal x1,0x10018; lbu x5,0(x8); add x10,x10,x5; addi x17,x0,93; ecall
// 0x10018: addi x2,x2,-16; sd x1,0(x2); jal x1,0x10028; ld x7,0(x0)
// 0x10028: addi x5,x0,34; sb x5,0(x8); addi x10,x0,1; addi x11,x8,0; addi x12,x0,1
// addi x17,x0,64; ecall; jalr x0,0(x1)
const OUTER_FAULTS: [u32; 18] = [
    0x00020437, 0x014000ef, 0x00044283, 0x00550533, 0x05d00893, 0x00000073, 0xff010113, 0x00113023,
    0x008000ef, 0x00003383, 0x02200293, 0x00540023, 0x00100513, 0x00040593, 0x00100613, 0x04000893,
    0x00000073, 0x00008067,
];

// The inner call returned well, and its byte is taken back with the outer one; what it wrote to the
// output stays.
#[test]
fn nested_outer_faults(rt: HostRuntime) -> Result<(), Fail> {
    let mut case = Case::of(&OUTER_FAULTS);
    case.data = Some(&[0x11]);
    case.points = Some(
        "[[point]]\nentry = 0x10018\nreturns = -2\n[[point]]\nentry = 0x10028\nreturns = -3\n",
    );
    let given = Given {
        history: &[
            Expected::Ran(2),
            Expected::Rescued(
                0x10018,
                FaultName::LoadRights,
                0x10024,
                &[
                    Inside::Ran(3),
                    Inside::Entered(0x10028),
                    Inside::Ran(6),
                    Inside::Called(1, Way::Write, 1, 1),
                    Inside::Ran(1),
                ],
            ),
            Expected::Ran(3),
            Expected::Exit(15),
        ],
        out: &[0x22],
        status: 15,
        report: "rescue-report 1\nsteps 16\nrecords 1\nrescues 1\n\
            rescue depth 0 hart 0 point 0000000000010018 fault load-rights pc 0000000000010024 \
            steps 11 records 1 code -2\nend exit 15\n",
    };
    assert_gives(&rt, rt.alloc(), &case, &given)?;
    Ok(())
}

// lui x8,0x20; jal x1,0x10018; lbu x5,0(x8); add x10,x10,x5; addi x17,x0,93; ecall
// 0x10018: addi x5,x0,0x22; sb x5,0(x8); addi x5,x0,0x33; sb x5,0(x8); ld x7,0(x0)
const CUT: [u32; 11] = [
    0x00020437, 0x014000ef, 0x00044283, 0x00550533, 0x05d00893, 0x00000073, 0x02200293, 0x00540023,
    0x03300293, 0x00540023, 0x00003383,
];

// The same, but 0x10018: addi x10,x0,9; addi x17,x0,94; ecall
const EXITS: [u32; 9] = [
    0x00020437, 0x014000ef, 0x00044283, 0x00550533, 0x05d00893, 0x00000073, 0x00900513, 0x05e00893,
    0x00000073,
];

const CUT_GIVES: Given = Given {
    history: &[
        Expected::Ran(2),
        Expected::Entered(0x10018),
        Expected::Ran(2),
        Expected::Budget,
    ],
    out: &[],
    status: 72,
    report: "rescue-report 1\nsteps 4\nrecords 0\nrescues 0\nend budget\n",
};

const CUT_BEFORE_GIVES: Given = Given {
    history: &[Expected::Ran(2), Expected::Budget],
    out: &[],
    status: 72,
    report: "rescue-report 1\nsteps 2\nrecords 0\nrescues 0\nend budget\n",
};

const EXITS_GIVES: Given = Given {
    history: &[
        Expected::Ran(2),
        Expected::Entered(0x10018),
        Expected::Ran(2),
        Expected::Exit(9),
    ],
    out: &[],
    status: 9,
    report: "rescue-report 1\nsteps 4\nrecords 0\nrescues 0\nend exit 9\n",
};

#[test]
fn end_inside_a_point(rt: HostRuntime) -> Result<(), Fail> {
    let mut case = Case::of(&CUT);
    case.data = Some(&[0x11]);
    case.points = Some("[[point]]\nentry = 0x10018\nreturns = -2\n");
    case.budget = Some(4);
    assert_gives(&rt, rt.alloc(), &case, &CUT_GIVES)?;
    case.budget = Some(2);
    assert_gives(&rt, rt.alloc(), &case, &CUT_BEFORE_GIVES)?;
    case.words = &EXITS;
    case.budget = None;
    assert_gives(&rt, rt.alloc(), &case, &EXITS_GIVES)?;
    Ok(())
}

// jal x1,0x10010; addi x17,x0,93; ecall; addi x0,x0,0
// 0x10010: addi x2,x2,-16; sd x1,0(x2); addi x5,x5,1; addi x6,x0,17; beq x5,x6,0x10034
// jal x1,0x10010; ld x1,0(x2); addi x2,x2,16; jalr x0,0(x1); 0x10034: ld x7,0(x0)
const SEVENTEEN: [u32; 14] = [
    0x010000ef, 0x05d00893, 0x00000073, 0x00000013, 0xff010113, 0x00113023, 0x00128293, 0x01100313,
    0x00628a63, 0xfedff0ef, 0x00013083, 0x01010113, 0x00008067, 0x00003383,
];

const ENTERS: Expected = Expected::Entered(0x10010);

const RUNS: Expected = Expected::Ran(6);

// The seventeenth arrival opens no frame, and its fault takes the sixteenth call back.
#[test]
fn seventeen_arrivals(rt: HostRuntime) -> Result<(), Fail> {
    let mut case = Case::of(&SEVENTEEN);
    case.points = Some("[[point]]\nentry = 0x10010\nreturns = -1\n");
    let given = Given {
        history: &[
            Expected::Ran(1),
            ENTERS,
            RUNS,
            ENTERS,
            RUNS,
            ENTERS,
            RUNS,
            ENTERS,
            RUNS,
            ENTERS,
            RUNS,
            ENTERS,
            RUNS,
            ENTERS,
            RUNS,
            ENTERS,
            RUNS,
            ENTERS,
            RUNS,
            ENTERS,
            RUNS,
            ENTERS,
            RUNS,
            ENTERS,
            RUNS,
            ENTERS,
            RUNS,
            ENTERS,
            RUNS,
            ENTERS,
            RUNS,
            Expected::Rescued(0x10010, FaultName::LoadRights, 0x10034, &[Inside::Ran(11)]),
            Expected::Ran(45),
            Expected::Ran(1),
            Expected::Exit(255),
        ],
        out: &[],
        status: 255,
        report: "rescue-report 1\nsteps 148\nrecords 0\nrescues 1\n\
            rescue depth 0 hart 0 point 0000000000010010 fault load-rights pc 0000000000010034 \
            steps 11 records 0 code -1\nend exit 255\n",
    };
    assert_gives(&rt, rt.alloc(), &case, &given)?;
    Ok(())
}
