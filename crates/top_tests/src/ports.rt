//! Programs with a port.
use crate::case::Case;
use crate::expected::{Expected, Inside};
use crate::given::{Given, assert_gives};
use guest_words::{FaultName, Way};
use std::test::Fail;

// addi x17,x0,57; addi x10,x0,3; ecall
// addi x10,x0,3; lui x11,0x20; addi x12,x0,1; addi x17,x0,64; ecall; addi x17,x0,93; ecall
const CLOSES: [u32; 10] = [
    0x03900893, 0x00300513, 0x00000073, 0x00300513, 0x000205b7, 0x00100613, 0x04000893, 0x00000073,
    0x05d00893, 0x00000073,
];

// The write after the closing answers -9.
#[test]
fn closed_port(rt: HostRuntime) -> Result<(), Fail> {
    let mut case = Case::of(&CLOSES);
    case.data = Some(b"a");
    case.port = true;
    let given = Given {
        history: &[
            Expected::Ran(2),
            Expected::Called(3, Way::Close, 0, 0),
            Expected::Ran(6),
            Expected::Exit(247),
        ],
        out: &[],
        status: 247,
        report: "rescue-report 1\nsteps 9\nrecords 1\nrescues 0\nend exit 247\n",
    };
    let outcome = assert_gives(&rt, rt.alloc(), &case, &given)?;
    assert!(rt; outcome.answer.devices.shut.as_slice() == [3].as_slice());
    Ok(())
}

// jal x1,0x10020; addi x10,x0,3; lui x11,0x20; addi x12,x0,1; addi x17,x0,63; ecall
// addi x17,x0,93; ecall; 0x10020: addi x17,x0,57; addi x10,x0,3; ecall; ebreak
const CLOSES_INSIDE: [u32; 12] = [
    0x020000ef, 0x00300513, 0x000205b7, 0x00100613, 0x03f00893, 0x00000073, 0x05d00893, 0x00000073,
    0x03900893, 0x00300513, 0x00000073, 0x00100073,
];

// The call is taken back, and the port stays closed: the read after it answers -9.
#[test]
fn close_inside_a_point(rt: HostRuntime) -> Result<(), Fail> {
    let mut case = Case::of(&CLOSES_INSIDE);
    case.data = Some(b"a");
    case.port = true;
    case.points = Some("[[point]]\nentry = 0x10020\nreturns = -1\n");
    let given = Given {
        history: &[
            Expected::Ran(1),
            Expected::Rescued(
                0x10020,
                FaultName::Breakpoint,
                0x1002c,
                &[Inside::Ran(2), Inside::Called(3, Way::Close, 0, 0)],
            ),
            Expected::Ran(6),
            Expected::Exit(247),
        ],
        out: &[],
        status: 247,
        report: "rescue-report 1\nsteps 10\nrecords 1\nrescues 1\n\
            rescue depth 0 hart 0 point 0000000000010020 fault breakpoint pc 000000000001002c \
            steps 3 records 1 code -1\nend exit 247\n",
    };
    let outcome = assert_gives(&rt, rt.alloc(), &case, &given)?;
    assert!(rt; outcome.answer.devices.shut.as_slice() == [3].as_slice());
    Ok(())
}

// addi x10,x0,3; lui x11,0x20; addi x12,x0,1; addi x17,x0,64; ecall; addi x17,x0,93; ecall
const WRITES: [u32; 7] = [
    0x00300513, 0x000205b7, 0x00100613, 0x04000893, 0x00000073, 0x05d00893, 0x00000073,
];

#[test]
fn failing_port(rt: HostRuntime) -> Result<(), Fail> {
    let mut case = Case::of(&WRITES);
    case.data = Some(b"a");
    case.port = true;
    case.port_fails = &[1];
    let given = Given {
        history: &[
            Expected::Ran(4),
            Expected::Called(3, Way::Write, 1, -5),
            Expected::Ran(1),
            Expected::Exit(251),
        ],
        out: &[],
        status: 251,
        report: "rescue-report 1\nsteps 6\nrecords 1\nrescues 0\nend exit 251\n",
    };
    assert_gives(&rt, rt.alloc(), &case, &given)?;
    Ok(())
}
