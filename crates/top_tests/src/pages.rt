//! Programs that ask for pages. Where an answer isn't the one that has to come, they exit with 1.
use crate::case::Case;
use crate::expected::{Expected, Inside};
use crate::given::{Given, assert_gives};
use guest_words::FaultName;
use std::test::Fail;

// lui x8,0x21; lui x9,0x22; addi x17,x0,214; addi x10,x0,0; ecall; bne x10,x8,0x10048
// addi x18,x8,16; addi x10,x18,0; ecall; bne x10,x18,0x10048; sd x8,-8(x9); addi x10,x8,-1; ecall
// bne x10,x18,0x10048; addi x10,x8,0; ecall; bne x10,x8,0x10048; ld x5,0(x8)
// 0x10048: addi x10,x0,1; addi x17,x0,93; ecall
const BREAKS: [u32; 21] = [
    0x00021437, 0x000224b7, 0x0d600893, 0x00000513, 0x00000073, 0x02851a63, 0x01040913, 0x00090513,
    0x00000073, 0x03251263, 0xfe84bc23, 0xfff40513, 0x00000073, 0x01251a63, 0x00040513, 0x00000073,
    0x00851463, 0x00043283, 0x00100513, 0x05d00893, 0x00000073,
];

// The last load finds no page, since the break is where it was.
#[test]
fn break_moves(rt: HostRuntime) -> Result<(), Fail> {
    let mut case = Case::of(&BREAKS);
    case.data = Some(&[]);
    let given = Given {
        history: &[
            Expected::Ran(4),
            Expected::Ran(4),
            Expected::Ran(4),
            Expected::Ran(3),
            Expected::Ran(2),
            Expected::Fault(FaultName::LoadRights, 0x10044),
        ],
        out: &[],
        status: 70,
        report: "rescue-report 1\nsteps 17\nrecords 0\nrescues 0\n\
            end fault load-rights hart 0 pc 0000000000010044\n",
    };
    assert_gives(&rt, rt.alloc(), &case, &given)?;
    Ok(())
}

// addi x8,x0,127; slli x8,x8,31; lui x9,0x1; addi x12,x0,3; addi x13,x0,0x22; addi x17,x0,222
// addi x11,x9,0; ecall; bne x10,x8,0x100b8; ecall; add x5,x8,x9; bne x10,x5,0x100b8
// addi x17,x0,215; addi x10,x8,0; ecall; bne x10,x0,0x100b8; addi x17,x0,222; slli x11,x9,1
// ecall; add x5,x5,x9; bne x10,x5,0x100b8; addi x11,x9,0; ecall; bne x10,x8,0x100b8
// addi x11,x0,0; addi x6,x0,-22; ecall; bne x10,x6,0x100b8; addi x11,x9,0; addi x13,x0,0x21
// ecall; bne x10,x6,0x100b8; addi x13,x0,0x22; lui x11,0x4001; ecall; addi x6,x6,10
// bne x10,x6,0x100b8; lui x10,0x20; addi x11,x9,0; addi x17,x0,215; ecall; addi x6,x6,-10
// bne x10,x6,0x100b8; addi x10,x0,0; addi x17,x0,93; ecall
// 0x100b8: addi x10,x0,1; addi x17,x0,93; ecall
const MAPS: [u32; 49] = [
    0x07f00413, 0x01f41413, 0x000014b7, 0x00300613, 0x02200693, 0x0de00893, 0x00048593, 0x00000073,
    0x08851c63, 0x00000073, 0x009402b3, 0x08551663, 0x0d700893, 0x00040513, 0x00000073, 0x06051e63,
    0x0de00893, 0x00149593, 0x00000073, 0x009282b3, 0x06551463, 0x00048593, 0x00000073, 0x04851e63,
    0x00000593, 0xfea00313, 0x00000073, 0x04651663, 0x00048593, 0x02100693, 0x00000073, 0x02651e63,
    0x02200693, 0x040015b7, 0x00000073, 0x00a30313, 0x02651463, 0x00020537, 0x00048593, 0x0d700893,
    0x00000073, 0xff630313, 0x00651863, 0x00000513, 0x05d00893, 0x00000073, 0x00100513, 0x05d00893,
    0x00000073,
];

#[test]
fn map_and_unmap(rt: HostRuntime) -> Result<(), Fail> {
    let given = Given {
        history: &[
            Expected::Ran(7),
            Expected::Ran(2),
            Expected::Ran(9),
            Expected::Ran(4),
            Expected::Ran(4),
            Expected::Ran(4),
            Expected::Ran(4),
            Expected::Ran(11),
            Expected::Exit(0),
        ],
        out: &[],
        status: 0,
        report: "rescue-report 1\nsteps 45\nrecords 0\nrescues 0\nend exit 0\n",
    };
    assert_gives(&rt, rt.alloc(), &Case::of(&MAPS), &given)?;
    Ok(())
}

// addi x8,x0,127; slli x8,x8,31; lui x9,0x1; addi x11,x9,0; addi x12,x0,3; addi x13,x0,0x22
// addi x17,x0,222; ecall; addi x5,x0,9; sb x5,0(x8); jal x1,0x10068; addi x5,x0,-1
// bne x10,x5,0x1005c; lbu x18,0(x8); addi x5,x0,9; bne x18,x5,0x1005c; addi x10,x0,0
// addi x17,x0,214; ecall; lui x5,0x11; bne x10,x5,0x1005c; add x8,x8,x9; ld x5,0(x8)
// 0x1005c: addi x10,x0,1; addi x17,x0,93; ecall
// 0x10068: addi x10,x8,0; addi x11,x9,0; addi x17,x0,215; ecall; slli x11,x9,1; addi x17,x0,222
// ecall; lui x10,0x12; addi x17,x0,214; ecall; ebreak
const TAKEN_BACK: [u32; 37] = [
    0x07f00413, 0x01f41413, 0x000014b7, 0x00048593, 0x00300613, 0x02200693, 0x0de00893, 0x00000073,
    0x00900293, 0x00540023, 0x040000ef, 0xfff00293, 0x02551663, 0x00044903, 0x00900293, 0x02591063,
    0x00000513, 0x0d600893, 0x00000073, 0x000112b7, 0x00551663, 0x00940433, 0x00043283, 0x00100513,
    0x05d00893, 0x00000073, 0x00040513, 0x00048593, 0x0d700893, 0x00000073, 0x00149593, 0x0de00893,
    0x00000073, 0x00012537, 0x0d600893, 0x00000073, 0x00100073,
];

// The page is there again with its byte, the break is where it was, and the page behind is gone.
#[test]
fn mappings_taken_back(rt: HostRuntime) -> Result<(), Fail> {
    let mut case = Case::of(&TAKEN_BACK);
    case.points = Some("[[point]]\nentry = 0x10068\nreturns = -1\n");
    let given = Given {
        history: &[
            Expected::Ran(7),
            Expected::Ran(4),
            Expected::Rescued(0x10068, FaultName::Breakpoint, 0x10090, &[Inside::Ran(10)]),
            Expected::Ran(7),
            Expected::Ran(4),
            Expected::Fault(FaultName::LoadRights, 0x10058),
        ],
        out: &[],
        status: 70,
        report: "rescue-report 1\nsteps 32\nrecords 0\nrescues 1\n\
            rescue depth 0 hart 0 point 0000000000010068 fault breakpoint pc 0000000000010090 \
            steps 10 records 0 code -1\nend fault load-rights hart 0 pc 0000000000010058\n",
    };
    assert_gives(&rt, rt.alloc(), &case, &given)?;
    Ok(())
}
