ghost use Rattle.std.specs.Prelude.{◌≡◌, ◌+◌, ◌*◌, ◌<◌, ◌≤◌, length, OnOk, IfSome};
ghost use Rattle.guest_words.specs.Rules.{first_broken};
ghost use Rattle.guest_words.specs.ElfFields.{e_shoff, e_shnum};
ghost use Rattle.elf_loader.specs.Checks.{Tells};
ghost use Rattle.elf_symbols.specs.SymbolFields.{sh_offset, sh_size, sh_link};
ghost use Rattle.elf_symbols.specs.SymbolTable.{section_rules, table_rules, table_place};

use crate::sym_fault::SymFault;
use elf_loader::fields::{u16_at, u32_at, u64_at};
use elf_loader::rules::{Broken, refuse};

/// Tries the rules on the section headers.
pub fn check_sections(file: &[u8]) -> Result<(), Broken<SymFault>>
    requires { 64 ≤ length file.now }
    ensures rules { Tells result (first_broken (section_rules file.now)) }
    ensures inside { OnOk result (e_shoff file.now + 64 * e_shnum file.now ≤ length file.now) }
{
    refuse(u16_at(file, 58) != 64, SymFault::SectionSize, 58)?;
    let end = u128::from(u64_at(file, 40)) + 64 * u128::from(u16_at(file, 60));
    refuse(end > file.len() as u128, SymFault::SectionsOutside, 40)
}

/// Where the header of the symbol table stands, if there is one.
pub fn find_table(file: &[u8]) -> Option<usize>
    requires long { 64 ≤ length file.now }
    requires inside { e_shoff file.now + 64 * e_shnum file.now ≤ length file.now }
    ensures place { result ≡ table_place file.now }
    ensures within { IfSome result (λ table. table + 64 ≤ length file.now) }
{
    let first = u64_at(file, 40) as usize;
    for k in 0..u16_at(file, 60) as usize {
        let place = first + 64 * k;
        if u32_at(file, place + 4) == 2 {
            return Some(place);
        }
    }
    None
}

/// Tries the rules on the symbol table and on the section with its names.
pub fn check_table(file: &[u8], table: usize) -> Result<(), Broken<SymFault>>
    requires long { 64 ≤ length file.now }
    requires inside { e_shoff file.now + 64 * e_shnum file.now ≤ length file.now }
    requires within { table + 64 ≤ length file.now }
    ensures rules { Tells result (first_broken (table_rules file.now table)) }
    ensures whole { OnOk result
        (sh_offset file.now table + sh_size file.now table ≤ length file.now) }
    ensures linked { OnOk result (sh_link file.now table < e_shnum file.now) }
{
    let at = table as u64;
    refuse(u64_at(file, table + 56) != 24, SymFault::EntrySize, at + 56)?;
    refuse(
        u64_at(file, table + 32) % 24 != 0,
        SymFault::EntrySize,
        at + 32,
    )?;
    let end = u128::from(u64_at(file, table + 24)) + u128::from(u64_at(file, table + 32));
    refuse(end > file.len() as u128, SymFault::TableOutside, at + 24)?;
    let link = u32_at(file, table + 40);
    if link >= u32::from(u16_at(file, 60)) {
        return Err((SymFault::StringSection, at + 40));
    }
    let strings = u64_at(file, 40) as usize + 64 * link as usize;
    refuse(
        u32_at(file, strings + 4) != 3,
        SymFault::StringSection,
        at + 40,
    )?;
    let end = u128::from(u64_at(file, strings + 24)) + u128::from(u64_at(file, strings + 32));
    refuse(
        end > file.len() as u128,
        SymFault::StringsOutside,
        strings as u64 + 24,
    )
}
