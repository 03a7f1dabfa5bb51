ghost use Rattle.std.specs.Prelude.{◌≡◌};
ghost use Rattle.guest_words.specs.ElfFault.{elf_fault_name};

/// The rule that a file breaks first, in the order in which the rules are tried.
#[derive(Clone, Copy, Debug, PartialEq, Eq)]
pub enum ElfFault {
    /// The file is shorter than the 64 bytes of its header.
    TooShort,
    /// It doesn't begin with 7f and the letters ELF.
    Magic,
    /// It isn't of the 64-bit class.
    Class,
    /// Its numbers aren't little-endian.
    ByteOrder,
    /// The version of the format isn't 1, in the identification or in the header.
    Version,
    /// It isn't an executable file with fixed addresses.
    FileType,
    /// It isn't for RISC-V.
    Machine,
    /// It asks for compressed instructions or for a calling convention with floats.
    Flags,
    /// A program header hasn't 56 bytes, or there are none or more than 64 of them.
    HeaderTable,
    /// The program headers pass the end of the file.
    HeadersOutside,
    /// A program header asks for dynamic linking.
    Dynamic,
    /// A load has more bytes in the file than in memory.
    SegmentSizes,
    /// A load's bytes pass the end of the file.
    SegmentOutside,
    /// A load begins below 0x1000 or passes 0x3f00000000.
    SegmentPlace,
    /// A load has both write and exec.
    WriteExecute,
    /// A load has a page in common with an earlier one of other rights, or a byte in common.
    PageClash,
    /// The loads up to this one have more than 16,384 pages.
    Large,
    /// The entry is no multiple of 4, or its page hasn't exec.
    Entry,
}

impl ElfFault {
    /// The name as a refusal prints it.
    pub fn name(self) -> &'static str
        ensures text { result.now ≡ elf_fault_name self }
    {
        match self {
            ElfFault::TooShort => "too-short",
            ElfFault::Magic => "magic",
            ElfFault::Class => "class",
            ElfFault::ByteOrder => "data",
            ElfFault::Version => "version",
            ElfFault::FileType => "type",
            ElfFault::Machine => "machine",
            ElfFault::Flags => "flags",
            ElfFault::HeaderTable => "header-table",
            ElfFault::HeadersOutside => "headers-outside",
            ElfFault::Dynamic => "dynamic",
            ElfFault::SegmentSizes => "segment-sizes",
            ElfFault::SegmentOutside => "segment-outside",
            ElfFault::SegmentPlace => "segment-place",
            ElfFault::WriteExecute => "write-execute",
            ElfFault::PageClash => "page-clash",
            ElfFault::Large => "large",
            ElfFault::Entry => "entry",
        }
    }
}
