//! Harts that are ready at once: the words of the seed say which of them goes on.
use crate::case::{Case, command, run_on, shelf};
use crate::image::image;
use std::alloc::{AllocError, Global};
use std::test::Fail;

// lui x8,0x20; addi x9,x0,3; 0x10008: beq x9,x0,0x1002c; lui x10,0x10; addi x10,x10,0x100
// addi x11,x0,0; addi x17,x0,220; ecall; beq x10,x0,0x1002c; addi x9,x9,-1; jal x0,0x10008
// 0x1002c: add x6,x8,x9; addi x5,x9,97; sb x5,0(x6); addi x19,x0,3
// 0x1003c: addi x10,x0,1; addi x11,x6,0; addi x12,x0,1; addi x17,x0,64; ecall; addi x19,x19,-1
// bne x19,x0,0x1003c; addi x7,x8,8; addi x28,x0,1; amoadd.w x0,x28,(x7); bne x9,x0,0x10080
// 0x10068: lw x29,0(x7); addi x30,x0,4; bne x29,x30,0x10068; addi x10,x0,0; addi x17,x0,94; ecall
// 0x10080: addi x17,x0,93; ecall
const FOUR: [u32; 34] = [
    0x00020437, 0x00300493, 0x02048263, 0x00010537, 0x10050513, 0x00000593, 0x0dc00893, 0x00000073,
    0x00050663, 0xfff48493, 0xfe1ff06f, 0x00940333, 0x06148293, 0x00530023, 0x00300993, 0x00100513,
    0x00030593, 0x00100613, 0x04000893, 0x00000073, 0xfff98993, 0xfe0994e3, 0x00840393, 0x00100e13,
    0x01c3a02f, 0x00049e63, 0x0003ae83, 0x00400f13, 0xffee9ce3, 0x00000513, 0x05e00893, 0x00000073,
    0x05d00893, 0x00000073,
];

/// What the output is given under a seed.
fn given(alloc: Global, case: &Case, seed: u64) -> Result<Vec<u8>, AllocError> {
    let mut words = command(alloc, case)?;
    words.push(format!(in alloc; "--seed={seed}")?)?;
    let program = image(alloc, case.words, case.data)?;
    let mut files = shelf(alloc, program, case.points)?;
    let outcome = run_on(alloc, &words, &mut files, case)?;
    Ok(outcome.answer.devices.out.given().to_vec(alloc)?)
}

fn is_there_thrice(bytes: &[u8], letter: u8) -> bool {
    bytes.iter().filter(|byte| **byte == letter).count() == 3
}

// Each of four harts puts its letter three times.
fn is_of_four(bytes: &[u8]) -> bool {
    bytes.len() == 12 && (b'a'..=b'd').all(|letter| is_there_thrice(bytes, letter))
}

#[test]
fn ten_seeds(rt: HostRuntime) -> Result<(), Fail> {
    let alloc = rt.alloc();
    let mut case = Case::of(&FOUR);
    case.data = Some(&[]);
    case.harts = Some(4);
    let first = given(alloc, &case, 0)?;
    let mut differs = false;
    for seed in 0..10 {
        let bytes = given(alloc, &case, seed)?;
        assert!(rt; is_of_four(&bytes));
        assert!(rt; bytes == given(alloc, &case, seed)?);
        differs = differs || bytes != first;
    }
    assert!(rt; differs);
    Ok(())
}
