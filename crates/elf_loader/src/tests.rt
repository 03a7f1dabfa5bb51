use crate::{LoadFault, load};
use guest_words::ElfFault;
use std::alloc::{AllocError, Global};
use std::test::Fail;

/// The smallest program: two instructions and the call to exit, at 0x10000.
const SMALLEST: [u8; 132] = [
    0x7f, 0x45, 0x4c, 0x46, 2, 1, 1, 0, 0, 0, 0, 0, 0, 0, 0, 0, 2, 0, 0xf3, 0, 1, 0, 0, 0, 0, 0, 1,
    0, 0, 0, 0, 0, 0x40, 0, 0, 0, 0, 0, 0, 0, 0, 0, 0, 0, 0, 0, 0, 0, 0, 0, 0, 0, 0x40, 0, 0x38, 0,
    1, 0, 0x40, 0, 0, 0, 0, 0, 1, 0, 0, 0, 5, 0, 0, 0, 0x78, 0, 0, 0, 0, 0, 0, 0, 0, 0, 1, 0, 0, 0,
    0, 0, 0, 0, 1, 0, 0, 0, 0, 0, 0x0c, 0, 0, 0, 0, 0, 0, 0, 0x0c, 0, 0, 0, 0, 0, 0, 0, 0, 0x10, 0,
    0, 0, 0, 0, 0, 0x93, 0x08, 0xd0, 0x05, 0x13, 0x05, 0x70, 0, 0x73, 0, 0, 0,
];

/// A number written over the file, from a place on, in so many bytes.
type Change = (usize, usize, u64);

fn write(file: &mut Vec<u8>, change: Change) {
    let (place, width, value) = change;
    for (k, byte) in value.to_le_bytes().iter().take(width).enumerate() {
        if let Some(old) = file.get_mut(place.wrapping_add(k)) {
            *old = *byte;
        }
    }
}

/// The smallest program with changes.
fn changed(alloc: Global, changes: &[Change]) -> Result<Vec<u8>, AllocError> {
    let mut file = SMALLEST.to_vec(alloc)?;
    for change in changes {
        write(&mut file, *change);
    }
    Ok(file)
}

fn refusal(alloc: Global, file: &[u8]) -> Option<LoadFault> {
    match load(alloc, file) {
        Ok(_) => None,
        Err(fault) => Some(fault),
    }
}

fn elf(fault: ElfFault, offset: u64) -> Option<LoadFault> {
    Some(LoadFault::Elf { fault, offset })
}

#[test]
fn smallest_program(rt: HostRuntime) -> Result<(), Fail> {
    let image = load(rt.alloc(), &SMALLEST)?;
    assert_eq!(rt; image.entry, 0x10000);
    for load in image.loads.items() {
        assert_eq!(rt; (load.address, load.size), (0x10000, 12));
        assert!(rt; load.bytes.items() == &SMALLEST[120..]);
        assert!(rt; load.rights.read && load.rights.exec && !load.rights.write);
    }
    assert_eq!(rt; image.loads.items().len(), 1);
    Ok(())
}

#[test]
fn file_cut_short(rt: HostRuntime) {
    for n in 0..133 {
        let want = match n {
            0..64 => elf(ElfFault::TooShort, n as u64),
            64..120 => elf(ElfFault::HeadersOutside, 32),
            120..132 => elf(ElfFault::SegmentOutside, 72),
            _ => None,
        };
        assert_eq!(rt; refusal(rt.alloc(), &SMALLEST[..n]), want, "cut to {n}");
    }
}

/// Each rule that one change of the smallest program breaks.
const FAULTS: [(Change, ElfFault, u64); 21] = [
    ((0, 1, 0x7e), ElfFault::Magic, 0),
    ((4, 1, 1), ElfFault::Class, 4),
    ((5, 1, 2), ElfFault::ByteOrder, 5),
    ((6, 1, 0), ElfFault::Version, 6),
    ((16, 2, 3), ElfFault::FileType, 16),
    ((18, 2, 62), ElfFault::Machine, 18),
    ((20, 4, 2), ElfFault::Version, 20),
    ((48, 4, 1), ElfFault::Flags, 48),
    ((48, 4, 4), ElfFault::Flags, 48),
    ((54, 2, 57), ElfFault::HeaderTable, 54),
    ((56, 2, 0), ElfFault::HeaderTable, 56),
    ((56, 2, 65), ElfFault::HeaderTable, 56),
    ((32, 8, u64::MAX), ElfFault::HeadersOutside, 32),
    ((64, 4, 2), ElfFault::Dynamic, 64),
    ((64, 4, 3), ElfFault::Dynamic, 64),
    ((96, 8, 13), ElfFault::SegmentSizes, 96),
    ((72, 8, 121), ElfFault::SegmentOutside, 72),
    ((80, 8, 4095), ElfFault::SegmentPlace, 80),
    ((68, 4, 7), ElfFault::WriteExecute, 68),
    ((104, 8, 67_108_865), ElfFault::Large, 104),
    ((24, 8, 0x10002), ElfFault::Entry, 24),
];

#[test]
fn refused_loads(rt: HostRuntime) -> Result<(), Fail> {
    for (change, fault, offset) in FAULTS {
        let file = changed(rt.alloc(), &[change])?;
        assert_eq!(rt;
            refusal(rt.alloc(), file.as_slice()),
            elf(fault, offset),
            "{change:?}"
        );
    }
    Ok(())
}

#[test]
fn sizes_at_the_ends(rt: HostRuntime) -> Result<(), Fail> {
    let two_bytes = [(72, 8, u64::MAX), (96, 8, 2), (104, 8, 2)];
    let no_bytes = [(96, 8, 0), (104, 8, u64::MAX)];
    let file = changed(rt.alloc(), &two_bytes)?;
    assert_eq!(rt;
        refusal(rt.alloc(), file.as_slice()),
        elf(ElfFault::SegmentOutside, 72)
    );
    let file = changed(rt.alloc(), &no_bytes)?;
    assert_eq!(rt;
        refusal(rt.alloc(), file.as_slice()),
        elf(ElfFault::SegmentPlace, 80)
    );
    Ok(())
}

/// The smallest program with a second program header, of 16 bytes of memory.
fn with_second(alloc: Global, flags: u64, address: u64) -> Result<Vec<u8>, AllocError> {
    let mut file = SMALLEST[..120].to_vec(alloc)?;
    file.extend_from_slice(&SMALLEST[64..])?;
    for change in [(56, 2, 2), (72, 8, 176), (128, 8, 176), (160, 8, 16)] {
        write(&mut file, change);
    }
    write(&mut file, (124, 4, flags));
    write(&mut file, (136, 8, address));
    Ok(file)
}

#[test]
fn second_load(rt: HostRuntime) -> Result<(), Fail> {
    for (flags, address, want) in [
        (6, 0x10800, elf(ElfFault::PageClash, 136)),
        (5, 0x1000b, elf(ElfFault::PageClash, 136)),
        (5, 0x10800, None),
        (6, 0x11000, None),
    ] {
        let file = with_second(rt.alloc(), flags, address)?;
        assert_eq!(rt; refusal(rt.alloc(), file.as_slice()), want, "at {address}");
    }
    Ok(())
}

#[test]
fn headers_of_other_types(rt: HostRuntime) -> Result<(), Fail> {
    for kind in [4, 0x6474_e551, 0x7000_0003] {
        let mut file = with_second(rt.alloc(), 7, 0)?;
        write(&mut file, (120, 4, kind));
        assert_eq!(rt; refusal(rt.alloc(), file.as_slice()), None, "type {kind}");
    }
    Ok(())
}

#[test]
fn printed_refusal(rt: HostRuntime) -> Result<(), Fail> {
    let text = refusal(rt.alloc(), &SMALLEST[..63]).ok_or("refused")?;
    assert!(rt; format!(in rt.alloc(); "{text}")?.as_str() == "elf too-short at 63");
    Ok(())
}
