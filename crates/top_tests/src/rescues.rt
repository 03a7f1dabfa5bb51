use crate::case::Case;
use crate::expected::{Expected, Inside};
use crate::given::{Given, assert_gives};
use crate::image::image;
use crate::logs::assert_notes_of;
use crate::replay::{loaded, named};
use guest_words::FaultName;
use std::alloc::Global;
use std::process::Abort;
use std::test::Fail;

// lui x8,0x20; jal x1,0x10018; lbu x5,0(x8); add x10,x10,x5; addi x17,x0,93; ecall
// 0x10018: addi x5,x0,0x22; sb x5,0(x8); addi x5,x0,0x33; sb x5,0(x8); ld x7,0(x0)
const WRITTEN_TWICE: [u32; 11] = [
    0x00020437, 0x014000ef, 0x00044283, 0x00550533, 0x05d00893, 0x00000073, 0x02200293, 0x00540023,
    0x03300293, 0x00540023, 0x00003383,
];

/// The program with a rescue file, and the status and the report that it has to give.
const CODES: [(&str, u8, &str); 2] = [
    (
        "[[point]]\nentry = 0x10018\nreturns = -2\n",
        15,
        "rescue-report 1\nsteps 9\nrecords 0\nrescues 1\n\
            rescue depth 0 hart 0 point 0000000000010018 fault load-rights pc 0000000000010028 \
            steps 4 records 0 code -2\nend exit 15\n",
    ),
    (
        "version = 2\n[[point]]\nentry = 0x10018\nreturns = -2\ncodes = { load-rights = -4 }\n",
        13,
        "rescue-report 1\nsteps 9\nrecords 0\nrescues 1\n\
            rescue depth 0 hart 0 point 0000000000010018 fault load-rights pc 0000000000010028 \
            steps 4 records 0 code -4\nend exit 13\n",
    ),
];

fn written_twice(
    rt: &impl Abort,
    alloc: Global,
    points: &str,
    status: u8,
    report: &str,
) -> Result<(), Fail> {
    let mut case = Case::of(&WRITTEN_TWICE);
    case.data = Some(&[0x11]);
    case.points = Some(points);
    let given = Given {
        history: &[
            Expected::Ran(2),
            Expected::Rescued(0x10018, FaultName::LoadRights, 0x10028, &[Inside::Ran(4)]),
            Expected::Ran(3),
            Expected::Exit(status),
        ],
        out: &[],
        status,
        report,
    };
    assert_gives(rt, alloc, &case, &given)?;
    Ok(())
}

/// That each of the two writes under the point is noted.
fn notes_each(rt: &impl Abort, alloc: Global, points: &str) -> Result<(), Fail> {
    let file = image(alloc, &WRITTEN_TWICE, Some(&[0x11]))?;
    let points = named(alloc, &file, points)?;
    assert_notes_of(rt, alloc, &loaded(alloc, &file)?, &points)
}

#[test]
fn byte_written_twice(rt: HostRuntime) -> Result<(), Fail> {
    let (points, status, report) = CODES[0];
    written_twice(&rt, rt.alloc(), points, status, report)?;
    notes_each(&rt, rt.alloc(), points)
}

#[test]
fn code_by_fault_name(rt: HostRuntime) -> Result<(), Fail> {
    let (points, status, report) = CODES[1];
    written_twice(&rt, rt.alloc(), points, status, report)
}

#[test]
fn one_point_rescued(rt: HostRuntime) -> Result<(), Fail> {
    // lui x8,0x20; jal x1,0x10018; ld x5,0(x8); add x10,x10,x5; addi x17,x0,93; ecall
    // 0x10018: addi x5,x0,0x22; sd x5,0(x8); ld x7,0(x0)
    let mut case = Case::of(&[
        0x00020437, 0x014000ef, 0x00043283, 0x00550533, 0x05d00893, 0x00000073, 0x02200293,
        0x00543023, 0x00003383,
    ]);
    case.data = Some(&[0x11]);
    case.points = Some("[[point]]\nentry = 0x10018\nreturns = -2\n");
    let given = Given {
        history: &[
            Expected::Ran(2),
            Expected::Rescued(0x10018, FaultName::LoadRights, 0x10020, &[Inside::Ran(2)]),
            Expected::Ran(3),
            Expected::Exit(15),
        ],
        out: &[],
        status: 15,
        report: "rescue-report 1\nsteps 7\nrecords 0\nrescues 1\n\
            rescue depth 0 hart 0 point 0000000000010018 fault load-rights pc 0000000000010020 \
            steps 2 records 0 code -2\nend exit 15\n",
    };
    assert_gives(&rt, rt.alloc(), &case, &given)?;
    Ok(())
}

/// A call of a point that answers 9.
#[test]
fn call_that_returns_well(rt: HostRuntime) -> Result<(), Fail> {
    // jal x1,0x1000c; addi x17,x0,93; ecall; 0x1000c: addi x10,x0,9; jalr x0,0(x1)
    let mut case = Case::of(&[0x00c000ef, 0x05d00893, 0x00000073, 0x00900513, 0x00008067]);
    case.points = Some("[[point]]\nentry = 0x1000c\nreturns = -1\n");
    let given = Given {
        history: &[
            Expected::Ran(1),
            Expected::Entered(0x1000c),
            Expected::Ran(2),
            Expected::Ran(1),
            Expected::Exit(9),
        ],
        out: &[],
        status: 9,
        report: "rescue-report 1\nsteps 4\nrecords 0\nrescues 0\nend exit 9\n",
    };
    assert_gives(&rt, rt.alloc(), &case, &given)?;
    Ok(())
}

// The entry of the point is run into, not jumped to.
#[test]
fn fault_with_no_frame_open(rt: HostRuntime) -> Result<(), Fail> {
    // ld x7,0(x0)
    let mut case = Case::of(&[0x00003383]);
    case.points = Some("[[point]]\nentry = 0x10000\nreturns = -1\n");
    let given = Given {
        history: &[Expected::Fault(FaultName::LoadRights, 0x10000)],
        out: &[],
        status: 70,
        report: "rescue-report 1\nsteps 0\nrecords 0\nrescues 0\n\
            end fault load-rights hart 0 pc 0000000000010000\n",
    };
    assert_gives(&rt, rt.alloc(), &case, &given)?;
    Ok(())
}

// The second arrival at the point opens no frame.
#[test]
fn spent_point(rt: HostRuntime) -> Result<(), Fail> {
    // jal x1,0x10010; jal x1,0x10010; addi x0,x0,0; addi x0,x0,0; 0x10010: ld x7,0(x0)
    let mut case = Case::of(&[0x010000ef, 0x00c000ef, 0x00000013, 0x00000013, 0x00003383]);
    case.points = Some("version = 2\n[[point]]\nentry = 0x10010\nreturns = -1\nlimit = 1\n");
    let given = Given {
        history: &[
            Expected::Ran(1),
            Expected::Rescued(0x10010, FaultName::LoadRights, 0x10010, &[]),
            Expected::Ran(1),
            Expected::Fault(FaultName::LoadRights, 0x10010),
        ],
        out: &[],
        status: 70,
        report: "rescue-report 1\nsteps 2\nrecords 0\nrescues 1\n\
            rescue depth 0 hart 0 point 0000000000010010 fault load-rights pc 0000000000010010 \
            steps 0 records 0 code -1\nspent point 0000000000010010\n\
            end fault load-rights hart 0 pc 0000000000010010\n",
    };
    let outcome = assert_gives(&rt, rt.alloc(), &case, &given)?;
    let points = outcome.answer.points.as_ref().ok_or("points")?;
    assert!(rt; points.items().first().ok_or("a point")?.left == Some(0));
    Ok(())
}
