//! Points that are tried on a call path.
use crate::case::{Case, list, run_on};
use crate::image::image;
use edge_ports::{MemoryShelf, ShelfFile};
use guest_words::{Bytes, Name};
use std::alloc::{AllocError, Global};
use std::test::Fail;

// lui x8,0x20; jal x1,f; lbu x5,0(x8); add x10,x10,x5; addi x17,x0,93; ecall
// f: addi x5,x0,34; sb x5,0(x8); addi x6,x0,51; sb x5,0(x8); ld x7,0(x0)
const CALLS: [u32; 11] = [
    0x00020437, 0x014000ef, 0x00044283, 0x00550533, 0x05d00893, 0x00000073, 0x02200293, 0x00540023,
    0x03300293, 0x00540023, 0x00003383,
];

// addi x17,x0,93; addi x10,x0,7; ecall
const SMALLEST: [u32; 3] = [0x05d00893, 0x00700513, 0x00000073];

// Three symbols: one that is none, the function `_start` at 0x10000, and `f` at 0x10018.
const SYMBOLS: [u64; 9] = [
    0,
    0,
    0,
    0x0001_0012_0000_0001,
    0x10000,
    0,
    0x0001_0012_0000_0008,
    0x10018,
    0,
];

const NAMES: &[u8; 16] = b"\0_start\0f\0\0\0\0\0\0\0";

fn add_numbers(file: &mut Vec<u8>, numbers: &[u64]) -> Result<(), AllocError> {
    for number in numbers {
        file.extend_from_slice(&number.to_le_bytes())?;
    }
    Ok(())
}

fn put(file: &mut Vec<u8>, place: usize, bytes: &[u8]) {
    for (k, byte) in bytes.iter().enumerate() {
        if let Some(old) = file.get_mut(place.wrapping_add(k)) {
            *old = *byte;
        }
    }
}

/// A program with those symbols, and with three headers of sections behind them.
fn with_symbols(alloc: Global, words: &[u32]) -> Result<Vec<u8>, AllocError> {
    let mut file = image(alloc, words, Some(&[17]))?;
    let symbols = file.len() as u64;
    let names = symbols.wrapping_add(72);
    let headers = names.wrapping_add(16);
    add_numbers(&mut file, &SYMBOLS)?;
    file.extend_from_slice(NAMES)?;
    add_numbers(&mut file, &[0; 8])?;
    add_numbers(&mut file, &[2 << 32, 0, 0, symbols, 72, 2, 0, 24])?;
    add_numbers(&mut file, &[3 << 32, 0, 0, names, 10, 0, 0, 0])?;
    put(&mut file, 40, &headers.to_le_bytes());
    put(&mut file, 60, &[3, 0]);
    Ok(file)
}

/// Whether a try of this program, on no input, has this status and this text.
fn comes_to(
    alloc: Global,
    words: &[u32],
    returns: &str,
    status: u8,
    text: &str,
) -> Result<bool, AllocError> {
    let mut files = Vec::new(alloc);
    files.push(ShelfFile {
        name: Name::of(String::from_str(alloc, "p")?),
        bytes: Bytes::of(with_symbols(alloc, words)?),
    })?;
    files.push(ShelfFile {
        name: Name::of(String::from_str(alloc, "i")?),
        bytes: Bytes::of(Vec::new(alloc)),
    })?;
    let mut shelf = MemoryShelf::new(files, Vec::new(alloc));
    let words = list(alloc, &["try", returns, "p", "i"])?;
    let tried = run_on(alloc, &words, &mut shelf, &Case::of(&[]))?;
    Ok(
        tried.answer.status == status
            && tried.answer.history.is_none()
            && tried.report.given() == text.as_bytes(),
    )
}

#[test]
fn points_are_tried(rt: HostRuntime) -> Result<(), Fail> {
    let alloc = rt.alloc();
    let good = "try-report 1\nfault load-rights hart 0 pc 0000000000010028\n\
        try 0000000000010018 f end exit 0 rescues 1\ngood 0000000000010018 f\ncount 1\n";
    let none = "try-report 1\nfault load-rights hart 0 pc 0000000000010028\n\
        try 0000000000010018 f end exit 15 rescues 1\ncount 0\n";
    assert!(rt; comes_to(alloc, &CALLS, "--returns=-17", 0, good)?);
    assert!(rt; comes_to(alloc, &CALLS, "--returns=-2", 0, none)?);
    assert!(rt; comes_to(alloc, &SMALLEST, "--seed=1", 79, "end exit 7\n")?);
    Ok(())
}
