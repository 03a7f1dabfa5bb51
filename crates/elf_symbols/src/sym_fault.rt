ghost use Rattle.std.specs.Prelude.{◌≡◌};
ghost use Rattle.elf_symbols.specs.SymFault.{sym_fault_name};

/// The rule on symbols that a file breaks first, in the order in which the rules are tried.
#[derive(Clone, Copy, Debug, PartialEq, Eq)]
pub enum SymFault {
    /// A section header hasn't 64 bytes.
    SectionSize,
    /// The section headers pass the end of the file.
    SectionsOutside,
    /// An entry of the symbol table hasn't 24 bytes, or the table isn't made of whole entries.
    EntrySize,
    /// The symbol table passes the end of the file.
    TableOutside,
    /// The section of the names isn't there, or is no string table.
    StringSection,
    /// The string table passes the end of the file.
    StringsOutside,
    /// A function's name begins past the string table, or no zero byte ends it there.
    NameOutside,
}

impl SymFault {
    /// The name as a refusal prints it.
    pub fn name(self) -> &'static str
        ensures text { result.now ≡ sym_fault_name self }
    {
        match self {
            SymFault::SectionSize => "section-size",
            SymFault::SectionsOutside => "sections-outside",
            SymFault::EntrySize => "entry-size",
            SymFault::TableOutside => "table-outside",
            SymFault::StringSection => "string-section",
            SymFault::StringsOutside => "strings-outside",
            SymFault::NameOutside => "name-outside",
        }
    }
}
