use crate::{Finder, Found, SymFault, SymbolTable, Symbols, SymbolsFault, functions};
use elf_loader::load;
use std::alloc::{AllocError, Global};
use std::test::Fail;

/// A number written over the file, from a place on, in so many bytes.
type Change = (usize, usize, u64);

/// A program with, from 132 on, two functions with their names and three section headers: an empty
/// one, the symbol table's at 288 and the string table's at 352. From 416 on it has four program
/// headers: a load, a note, the stack's flags and RISC-V attributes.
const PARTS: [Change; 35] = [
    (0, 8, 0x0001_0102_464c_457f),
    (16, 2, 2),
    (18, 2, 243),
    (20, 4, 1),
    (24, 8, 0x10000),
    (32, 8, 416),
    (40, 8, 224),
    (54, 2, 56),
    (56, 2, 4),
    (58, 2, 64),
    (60, 2, 3),
    (156, 4, 1),
    (160, 1, 0x12),
    (162, 2, 1),
    (164, 8, 0x10000),
    (180, 4, 8),
    (184, 1, 0x12),
    (186, 2, 1),
    (188, 8, 0x100b0),
    (196, 8, 36),
    (292, 4, 2),
    (312, 8, 132),
    (320, 8, 72),
    (328, 4, 2),
    (344, 8, 24),
    (356, 4, 3),
    (376, 8, 204),
    (416, 4, 1),
    (420, 4, 5),
    (432, 8, 0x10000),
    (448, 8, 132),
    (456, 8, 256),
    (472, 4, 4),
    (528, 4, 0x6474_e551),
    (584, 4, 0x7000_0003),
];

fn write(file: &mut Vec<u8>, change: Change) {
    let (place, width, value) = change;
    for (k, byte) in value.to_le_bytes().iter().take(width).enumerate() {
        if let Some(old) = file.get_mut(place.wrapping_add(k)) {
            *old = *byte;
        }
    }
}

/// The program with a change.
fn changed(alloc: Global, change: Change) -> Result<Vec<u8>, AllocError> {
    let mut file = vec![in alloc; 0; 204]?;
    file.extend_from_slice(b"\0_start\0handle\0")?;
    file.resize(640, 0)?;
    for part in PARTS {
        write(&mut file, part);
    }
    write(&mut file, (384, 8, 15));
    write(&mut file, change);
    Ok(file)
}

const NO_CHANGE: Change = (0, 0, 0);

/// The symbols of a program that the loader accepts.
fn read(alloc: Global, file: &[u8]) -> Result<Result<Symbols<'_>, SymbolsFault>, Fail> {
    load(alloc, file)?;
    Ok(functions(file))
}

#[test]
fn symbols_of_a_program(rt: HostRuntime) -> Result<(), Fail> {
    let file = changed(rt.alloc(), NO_CHANGE)?;
    let symbols = read(rt.alloc(), &file)??.to_vec(rt.alloc())?;
    let wanted = [(0x10000, 0, "_start"), (0x100b0, 36, "handle")];
    assert_eq!(rt; symbols.len(), 2);
    for (symbol, (value, size, name)) in symbols.iter().zip(wanted) {
        assert_eq!(rt; (symbol.value, symbol.size), (value, size));
        assert!(rt; symbol.name.text() == name);
    }
    Ok(())
}

#[test]
fn symbols_by_name(rt: HostRuntime) -> Result<(), Fail> {
    let file = changed(rt.alloc(), NO_CHANGE)?;
    let symbols = read(rt.alloc(), &file)??;
    assert_eq!(rt; symbols.find("handle"), Found::One(0x100b0));
    for other in ["main", "handl", "handles", "", "_start\0handle"] {
        assert_eq!(rt; symbols.find(other), Found::Absent);
    }
    let file = changed(rt.alloc(), (180, 4, 1))?;
    assert_eq!(rt; read(rt.alloc(), &file)??.find("_start"), Found::Several(2));
    Ok(())
}

#[test]
fn names_found_in_one_walk(rt: HostRuntime) -> Result<(), Fail> {
    let file = changed(rt.alloc(), (180, 4, 1))?;
    let symbols = read(rt.alloc(), &file)??;
    let finder = Finder::of(rt.alloc(), &symbols, &["_start", "main", "_start\0handle"])?;
    assert_eq!(rt; finder.find("_start"), Found::Several(2));
    for other in ["main", "handle", "_start\0handle"] {
        assert_eq!(rt; finder.find(other), Found::Absent);
    }
    Ok(())
}

#[test]
fn symbols_of_a_table(rt: HostRuntime) {
    let mut file = [0; 24];
    (file[4], file[6], file[8]) = (2, 1, 7);
    let table = SymbolTable {
        file: &file,
        first: 0,
        count: 1,
        strings: b"a",
    };
    assert_eq!(rt; Symbols::of(Some(table)).find("a"), Found::One(7));
}

#[test]
fn symbols_left_out(rt: HostRuntime) -> Result<(), Fail> {
    for (change, count) in [
        ((40, 8, 0), 0),
        ((60, 2, 0), 0),
        ((292, 4, 1), 0),
        ((184, 1, 0x11), 1),
        ((186, 2, 0), 1),
        ((212, 1, 0xff), 1),
    ] {
        let file = changed(rt.alloc(), change)?;
        let symbols = read(rt.alloc(), &file)??.to_vec(rt.alloc())?;
        assert_eq!(rt; symbols.len(), count, "{change:?}");
    }
    Ok(())
}

/// Each rule that one change of the program breaks.
const FAULTS: [(Change, SymFault, u64); 11] = [
    ((58, 2, 32), SymFault::SectionSize, 58),
    ((60, 2, 7), SymFault::SectionsOutside, 40),
    ((40, 8, u64::MAX), SymFault::SectionsOutside, 40),
    ((344, 8, 23), SymFault::EntrySize, 344),
    ((320, 8, 25), SymFault::EntrySize, 320),
    ((320, 8, 0xffff_ffff_ffff_fff0), SymFault::TableOutside, 312),
    ((328, 4, 3), SymFault::StringSection, 328),
    ((356, 4, 2), SymFault::StringSection, 328),
    ((384, 8, u64::MAX), SymFault::StringsOutside, 376),
    ((180, 4, 15), SymFault::NameOutside, 180),
    ((384, 8, 14), SymFault::NameOutside, 180),
];

#[test]
fn refused_symbols(rt: HostRuntime) -> Result<(), Fail> {
    for (change, fault, offset) in FAULTS {
        let file = changed(rt.alloc(), change)?;
        let answer = read(rt.alloc(), &file)?.err();
        let want = Some(SymbolsFault { fault, offset });
        assert_eq!(rt; answer, want, "{change:?}");
    }
    Ok(())
}

#[test]
fn printed_refusal(rt: HostRuntime) -> Result<(), Fail> {
    let file = changed(rt.alloc(), (58, 2, 32))?;
    let text = read(rt.alloc(), &file)?.err().ok_or("refused")?;
    let text = format!(in rt.alloc(); "{text}")?;
    assert!(rt; text.as_str() == "symbols section-size at 58");
    Ok(())
}
