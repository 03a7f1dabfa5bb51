use crate::{elf_hint, sym_hint};
use elf_symbols::SymFault;
use guest_words::ElfFault;
use std::test::Fail;

#[test]
fn compressed_code(rt: HostRuntime) -> Result<(), Fail> {
    let want =
        "  a program has no compressed code and no floats in registers: -march=rv64ima -mabi=lp64\n  the C library counts too: -nostdlib, or one that was built with these options\n";
    assert!(rt; elf_hint(ElfFault::Flags) == want);
    Ok(())
}

#[test]
fn cut_table_of_symbols(rt: HostRuntime) -> Result<(), Fail> {
    let want =
        "  the file is cut: its table of symbols goes past its end\n  strip takes the symbols away, and then a rescue file names its points by entry\n";
    assert!(rt; sym_hint(SymFault::TableOutside) == want);
    Ok(())
}
