ghost use Rattle.std.specs.Prelude.{◌≡◌};
ghost use Rattle.elf_hints.specs.Hints.{elf_hint, sym_hint};

use elf_symbols::SymFault;
use guest_words::ElfFault;

/// What would be right in a file that the loader refuses, with the options of compiler and linker
/// that make it so. One line or two in ASCII; each begins with two spaces and ends with a line feed.
pub fn elf_hint(fault: ElfFault) -> &'static str
    ensures text { result.now ≡ elf_hint fault }
{
    match fault {
        ElfFault::TooShort => "  the file is cut: a header has 64 bytes\n",
        ElfFault::Magic => "  a program is an ELF file, as riscv64-linux-gnu-gcc makes it\n",
        ElfFault::Class => "  a program has 64 bits: -march=rv64ima -mabi=lp64\n",
        ElfFault::ByteOrder => "  a program is little-endian, as compilers for riscv64 make it\n",
        ElfFault::Version => "  the version of the format is 1, as every linker writes it\n",
        ElfFault::FileType =>
            "  a program is linked at fixed addresses: -static, and no -c, -pie or -shared\n",
        ElfFault::Machine =>
            "  a program is for RISC-V: the compiler for riscv64, as riscv64-linux-gnu-gcc\n",
        ElfFault::Flags =>
            "  a program has no compressed code and no floats in registers: -march=rv64ima -mabi=lp64\n  the C library counts too: -nostdlib, or one that was built with these options\n",
        ElfFault::HeaderTable => "  a program has 1 to 64 program headers, of 56 bytes each\n",
        ElfFault::HeadersOutside => "  the file is cut: its program headers go past its end\n",
        ElfFault::Dynamic => "  a program asks for no dynamic linker: -static\n",
        ElfFault::SegmentSizes => "  a load has no more bytes in the file than in memory\n",
        ElfFault::SegmentOutside => "  the file is cut: a load goes past its end\n",
        ElfFault::SegmentPlace =>
            "  loads lie from 0x1000 to 0x3f00000000, as the linker puts them by itself\n",
        ElfFault::WriteExecute =>
            "  no load is both written and executed: no -n and no -N for the linker\n",
        ElfFault::PageClash =>
            "  loads with other rights have pages of their own: no -z max-page-size below 4096\n",
        ElfFault::Large =>
            "  the loads have at most 16384 pages, which are 64 MiB: smaller arrays\n",
        ElfFault::Entry =>
            "  the entry is in an executable load, at a multiple of 4: _start in the code\n",
    }
}

/// What would be right in a program whose symbols are refused, and what does without them. Two
/// lines in ASCII; each begins with two spaces and ends with a line feed.
pub fn sym_hint(fault: SymFault) -> &'static str
    ensures text { result.now ≡ sym_hint fault }
{
    match fault {
        SymFault::SectionSize =>
            "  a section header has 64 bytes\n  strip takes the symbols away, and then a rescue file names its points by entry\n",
        SymFault::SectionsOutside =>
            "  the file is cut: its section headers go past its end\n  strip takes the symbols away, and then a rescue file names its points by entry\n",
        SymFault::EntrySize =>
            "  a symbol has 24 bytes, and the table is made of whole ones\n  strip takes the symbols away, and then a rescue file names its points by entry\n",
        SymFault::TableOutside =>
            "  the file is cut: its table of symbols goes past its end\n  strip takes the symbols away, and then a rescue file names its points by entry\n",
        SymFault::StringSection =>
            "  the table of symbols names a section of texts\n  strip takes the symbols away, and then a rescue file names its points by entry\n",
        SymFault::StringsOutside =>
            "  the file is cut: the texts of its symbols go past its end\n  strip takes the symbols away, and then a rescue file names its points by entry\n",
        SymFault::NameOutside =>
            "  a function's name ends in the section of texts, by a zero byte\n  strip takes the symbols away, and then a rescue file names its points by entry\n",
    }
}
