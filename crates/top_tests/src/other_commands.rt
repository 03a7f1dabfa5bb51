//! The commands that run no program of the user's.
use crate::case::{Case, list, run_on};
use crate::image::image;
use edge_ports::{MemoryShelf, ShelfFile};
use guest_words::{Bytes, Name};
use std::alloc::{AllocError, Global};
use std::test::Fail;

// addi x17,x0,93; addi x10,x0,7; ecall
const SMALLEST: [u32; 3] = [0x05d00893, 0x00700513, 0x00000073];

/// A shelf with that program under the name `p`.
fn shelf(alloc: Global) -> Result<MemoryShelf, AllocError> {
    let mut files = Vec::new(alloc);
    files.push(ShelfFile {
        name: Name::of(String::from_str(alloc, "p")?),
        bytes: Bytes::of(image(alloc, &SMALLEST, None)?),
    })?;
    Ok(MemoryShelf::new(files, Vec::new(alloc)))
}

// Worked out apart from the program: the sum of the input that the words of the number 1 give, its
// zeros, which are the rescues, and the steps of the listing in the turns that these words choose.
const FIRST_LOAD: &str = "load 1\nbytes 1000\nsum 7630\nsteps 17060\nrecords 1005\nrescues 67\n\
    end exit 0\n";

// The program has no symbols.
#[test]
fn list_and_load(rt: HostRuntime) -> Result<(), Fail> {
    let alloc = rt.alloc();
    let mut shelf = shelf(alloc)?;
    let nothing = Case::of(&[]);
    let listed = run_on(alloc, &list(alloc, &["list", "p"])?, &mut shelf, &nothing)?;
    assert_eq!(rt; listed.answer.status, 0);
    assert!(rt; listed.answer.history.is_none());
    assert!(rt; listed.report.given().is_empty());
    let loaded = run_on(alloc, &list(alloc, &["load", "1"])?, &mut shelf, &nothing)?;
    assert_eq!(rt; loaded.answer.status, 0);
    assert!(rt; loaded.report.given() == FIRST_LOAD.as_bytes());
    Ok(())
}
