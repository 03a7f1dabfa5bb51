//! Saved histories, and their audits.
use crate::case::{Case, list, run_on};
use crate::image::image;
use edge_ports::{MemoryShelf, Shelf, ShelfFile};
use guest_words::{Bytes, Name};
use std::alloc::{AllocError, Global};
use std::test::Fail;

// addi x17,x0,93; addi x10,x0,7; ecall
const SMALLEST: [u32; 3] = [0x05d00893, 0x00700513, 0x00000073];

// Its history: 8 harts, no port, a budget of 5,000,000 steps, two entries; two steps of hart 0, and
// the exit of hart 0 with code 7.
const HISTORY: &[u8] = b"rescueh1\x08\x00\x00\x00\x00\x00\x00\x00\x00\x40\x4b\x4c\x00\x00\x00\x00\
    \x00\x02\x00\x00\x00\x00\x00\x00\x00\x01\x00\x02\x00\x00\x00\x05\x00\x00\x07";

fn file(alloc: Global, name: &str, bytes: &[u8]) -> Result<ShelfFile, AllocError> {
    Ok(ShelfFile {
        name: Name::of(String::from_str(alloc, name)?),
        bytes: Bytes::of(bytes.to_vec(alloc)?),
    })
}

/// A shelf with that program, with a history under the name `h`, and with an empty file `e` and one
/// of a byte, `o`.
fn shelf(alloc: Global, history: &[u8]) -> Result<MemoryShelf, AllocError> {
    let mut files = Vec::new(alloc);
    files.push(file(alloc, "p", &image(alloc, &SMALLEST, None)?)?)?;
    files.push(file(alloc, "h", history)?)?;
    files.push(file(alloc, "e", b"")?)?;
    files.push(file(alloc, "o", b"h")?)?;
    Ok(MemoryShelf::new(files, Vec::new(alloc)))
}

/// Whether the audit of a history, with the output of this file, has this status and this line.
fn says(
    alloc: Global,
    history: &[u8],
    out: &str,
    status: u8,
    line: &str,
) -> Result<bool, AllocError> {
    let words = list(alloc, &["audit", "h", "p", "e", out, "e"])?;
    let mut shelf = shelf(alloc, history)?;
    let audited = run_on(alloc, &words, &mut shelf, &Case::of(&[]))?;
    Ok(
        audited.answer.status == status
            && audited.answer.history.is_none()
            && audited.report.given() == line.as_bytes(),
    )
}

/// The history with another byte at a place.
fn changed(alloc: Global, place: usize, byte: u8) -> Result<Vec<u8>, AllocError> {
    let mut bytes = HISTORY.to_vec(alloc)?;
    if let Some(old) = bytes.get_mut(place) {
        *old = byte;
    }
    Ok(bytes)
}

#[test]
fn a_run_is_saved(rt: HostRuntime) -> Result<(), Fail> {
    let alloc = rt.alloc();
    let mut shelf = shelf(alloc, b"")?;
    let words = list(alloc, &["alone", "--save=h", "p"])?;
    let ran = run_on(alloc, &words, &mut shelf, &Case::of(&[]))?;
    assert_eq!(rt; ran.answer.status, 7);
    let saved = shelf.load(alloc, "h", 64).map_err(|_| AllocError)?;
    assert!(rt; saved.items() == HISTORY);
    Ok(())
}

#[test]
fn histories_are_audited(rt: HostRuntime) -> Result<(), Fail> {
    let alloc = rt.alloc();
    let yes = "audit yes steps 2 records 0 rescues 0\n";
    assert!(rt; says(alloc, HISTORY, "e", 0, yes)?);
    assert!(rt; says(alloc, HISTORY, "o", 78, "audit no device 1\n")?);
    assert!(rt;
        says(
            alloc,
            &changed(alloc, 35, 1)?,
            "e",
            78,
            "audit no entry 1\n"
        )?
    );
    let mut longer = HISTORY.to_vec(alloc)?;
    longer.push(0)?;
    assert!(rt; says(alloc, &longer, "e", 78, "audit no file rest at 43\n")?);
    Ok(())
}
