use crate::case::Case;
use crate::expected::Expected;
use crate::given::{Given, assert_gives, gives_or_wants};
use guest_words::{FaultName, Way};
use std::test::Fail;

// addi x17,x0,93; addi x10,x0,7; ecall
const SMALLEST: [u32; 3] = [0x05d00893, 0x00700513, 0x00000073];

const SMALLEST_GIVES: Given = Given {
    history: &[Expected::Ran(2), Expected::Exit(7)],
    out: &[],
    status: 7,
    report: "rescue-report 1\nsteps 2\nrecords 0\nrescues 0\nend exit 7\n",
};

#[test]
fn smallest_program(rt: HostRuntime) -> Result<(), Fail> {
    assert_gives(&rt, rt.alloc(), &Case::of(&SMALLEST), &SMALLEST_GIVES)?;
    Ok(())
}

// addi x10,x0,1; lui x11,0x20; addi x12,x0,3; addi x17,x0,64; ecall
// addi x10,x0,0; addi x17,x0,93; ecall
const WRITE: [u32; 8] = [
    0x00100513, 0x000205b7, 0x00300613, 0x04000893, 0x00000073, 0x00000513, 0x05d00893, 0x00000073,
];

const WRITE_GIVES: Given = Given {
    history: &[
        Expected::Ran(4),
        Expected::Called(1, Way::Write, 3, 3),
        Expected::Ran(2),
        Expected::Exit(0),
    ],
    out: b"hi\n",
    status: 0,
    report: "rescue-report 1\nsteps 7\nrecords 1\nrescues 0\nend exit 0\n",
};

fn write() -> Case<'static> {
    let mut case = Case::of(&WRITE);
    case.data = Some(b"hi\n");
    case
}

#[test]
fn write_to_out(rt: HostRuntime) -> Result<(), Fail> {
    assert_gives(&rt, rt.alloc(), &write(), &WRITE_GIVES)?;
    Ok(())
}

/// With any allocation refused: the case's own outcome, or want of memory and a run so far.
#[test]
fn refused_memory(rt: HostRuntime) -> Result<(), Fail> {
    let alloc = rt.alloc();
    assert!(rt; gives_or_wants(alloc, &Case::of(&SMALLEST), &SMALLEST_GIVES).unwrap_or(true));
    assert!(rt; gives_or_wants(alloc, &write(), &WRITE_GIVES).unwrap_or(true));
    Ok(())
}

/// A write from a place without a page, and one of no bytes.
const REFUSED_WRITES: [(u32, u8, &str); 2] = [
    (
        0x00300613,
        242,
        "rescue-report 1\nsteps 6\nrecords 0\nrescues 0\nend exit 242\n",
    ),
    (
        0x00000613,
        0,
        "rescue-report 1\nsteps 6\nrecords 0\nrescues 0\nend exit 0\n",
    ),
];

#[test]
fn empty_and_refused_writes(rt: HostRuntime) -> Result<(), Fail> {
    for (size, status, report) in REFUSED_WRITES {
        // addi x10,x0,1; lui x11,0x30; addi x12,x0,SIZE; addi x17,x0,64; ecall
        // addi x17,x0,93; ecall
        let words = [
            0x00100513, 0x000305b7, size, 0x04000893, 0x00000073, 0x05d00893, 0x00000073,
        ];
        let given = Given {
            history: &[Expected::Ran(6), Expected::Exit(status)],
            out: &[],
            status,
            report,
        };
        assert_gives(&rt, rt.alloc(), &Case::of(&words), &given)?;
    }
    Ok(())
}

#[test]
fn load_across_pages(rt: HostRuntime) -> Result<(), Fail> {
    // lui x6,0x21; ld x5,-4(x6)
    let mut case = Case::of(&[0x00021337, 0xffc33283]);
    case.data = Some(&[]);
    let given = Given {
        history: &[
            Expected::Ran(1),
            Expected::Fault(FaultName::LoadRights, 0x10004),
        ],
        out: &[],
        status: 70,
        report: "rescue-report 1\nsteps 1\nrecords 0\nrescues 0\n\
            end fault load-rights hart 0 pc 0000000000010004\n",
    };
    assert_gives(&rt, rt.alloc(), &case, &given)?;
    Ok(())
}

#[test]
fn jump_to_two_modulo_four(rt: HostRuntime) -> Result<(), Fail> {
    let given = Given {
        history: &[Expected::Fault(FaultName::FetchMisaligned, 0x10000)],
        out: &[],
        status: 70,
        report: "rescue-report 1\nsteps 0\nrecords 0\nrescues 0\n\
            end fault fetch-misaligned hart 0 pc 0000000000010000\n",
    };
    // jal x0,+2
    assert_gives(&rt, rt.alloc(), &Case::of(&[0x0020006f]), &given)?;
    Ok(())
}

// addi x10,x0,1; lui x11,0x20; addi x12,x0,1; addi x17,x0,64; ecall; ecall; ecall
// addi x17,x0,93; ecall
const FAILING_OUTPUT: [u32; 9] = [
    0x00100513, 0x000205b7, 0x00100613, 0x04000893, 0x00000073, 0x00000073, 0x00000073, 0x05d00893,
    0x00000073,
];

/// Three writes of one byte, the last of which fails.
const OUTPUT_FAILS: Given = Given {
    history: &[
        Expected::Ran(4),
        Expected::Called(1, Way::Write, 1, 1),
        Expected::Called(1, Way::Write, 1, 1),
        Expected::Called(1, Way::Write, 1, -5),
        Expected::Ran(1),
        Expected::Exit(251),
    ],
    out: b"aa",
    status: 251,
    report: "rescue-report 1\nsteps 8\nrecords 3\nrescues 0\nend exit 251\n",
};

const REPORT_FAILS: Given = Given {
    history: &[Expected::Ran(2), Expected::Exit(7)],
    out: &[],
    status: 74,
    report: "",
};

#[test]
fn failing_devices(rt: HostRuntime) -> Result<(), Fail> {
    let mut output = Case::of(&FAILING_OUTPUT);
    output.data = Some(b"a");
    output.out_fails = &[3];
    assert_gives(&rt, rt.alloc(), &output, &OUTPUT_FAILS)?;
    let mut report = Case::of(&SMALLEST);
    report.report_fails = &[1];
    assert_gives(&rt, rt.alloc(), &report, &REPORT_FAILS)?;
    Ok(())
}

#[test]
fn unknown_call(rt: HostRuntime) -> Result<(), Fail> {
    // addi x17,x0,999; ecall; addi x17,x0,93; ecall
    let case = Case::of(&[0x3e700893, 0x00000073, 0x05d00893, 0x00000073]);
    let given = Given {
        history: &[Expected::Ran(3), Expected::Exit(218)],
        out: &[],
        status: 218,
        report: "rescue-report 1\nsteps 3\nrecords 0\nrescues 0\nend exit 218\n",
    };
    assert_gives(&rt, rt.alloc(), &case, &given)?;
    Ok(())
}
