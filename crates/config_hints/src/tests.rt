use crate::{explanation, fault_explanation};
use elf_symbols::{SymbolTable, Symbols};
use guest_words::{MemoryWant, Span};
use rescue_config::PointFault;
use std::alloc::Global;
use std::test::Fail;

/// The one executable load of a program.
const TEXT: [Span; 1] = [Span {
    from: 0x10000,
    size: 256,
}];

/// The symbol table of the program: a function named f at the start of the text.
const ENTRIES: [u8; 24] = *b"\
    \0\0\0\0\x02\0\x01\0\0\0\x01\0\0\0\0\0\0\0\0\0\0\0\0\0";

/// Whether the explanation of a rescue file for the program is this text.
fn explains(alloc: Global, file: &[u8], want: &str) -> Result<bool, MemoryWant> {
    let entries = ENTRIES;
    let symbols = Symbols::of(Some(SymbolTable {
        file: &entries,
        first: 0,
        count: 1,
        strings: b"f\0",
    }));
    let text = TEXT;
    let lines = explanation(alloc, file, &symbols, &text)?;
    Ok(lines.items() == want.as_bytes())
}

#[test]
fn unknown_key_of_a_point(rt: HostRuntime) -> Result<(), Fail> {
    let file = b"[[point]]\nfunction = 'f'\nreturns = 0\n[[point]]\nbudgets = 1\n";
    let want =
        "  point 1: 'budgets' is no key of a point\n  the keys of a point are function, entry, returns and kind, and from version 2 on codes and limit\n";
    assert!(rt; explains(rt.alloc(), file, want)?);
    Ok(())
}

#[test]
fn entry_outside_the_text(rt: HostRuntime) -> Result<(), Fail> {
    let file = b"[[point]]\nentry = 131072\nreturns = 0\n";
    let want =
        "  point 0: 0x20000 lies outside the executable ranges\n  the executable ranges are 0x10000 to 0x10100\n";
    assert!(rt; explains(rt.alloc(), file, want)?);
    Ok(())
}

#[test]
fn name_of_no_symbol(rt: HostRuntime) -> Result<(), Fail> {
    let file = "[[point]]\nfunction = 'fü'\nreturns = 0\n".as_bytes();
    let want =
        "  point 0: 'f??' is no function symbol of the program\n  rescue list prints the symbols; for a stripped program entry serves\n";
    assert!(rt; explains(rt.alloc(), file, want)?);
    Ok(())
}

#[test]
fn file_that_keeps_the_rules(rt: HostRuntime) -> Result<(), Fail> {
    let file = b"[[point]]\nfunction = 'f'\nreturns = 0\n";
    assert!(rt; explains(rt.alloc(), file, "")?);
    Ok(())
}

#[test]
fn loose_point(rt: HostRuntime) -> Result<(), Fail> {
    let file = b"version = 3\n[[point]]\nfunction = 'f'\nreturns = 0\nkind = 'loose'\n";
    let text = TEXT;
    let lines = fault_explanation(rt.alloc(), file, &text, PointFault::LooseHere, Some(0))?;
    let want =
        "  point 0: it is loose, and loose points aren't run yet\n  a file that is run has the kinds 'blocking' and 'off'\n";
    assert!(rt; lines.items() == want.as_bytes());
    Ok(())
}
