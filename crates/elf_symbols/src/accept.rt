ghost use Rattle.std.specs.Prelude.{◌≡◌, ◌≤◌, length, IfOk};
ghost use Rattle.elf_loader.specs.Checks.{Tells};
ghost use Rattle.elf_symbols.specs.Listed.{listed};
ghost use Rattle.elf_symbols.specs.SymbolTable.{has_sections, first_symbol_fault, symbols_of};

use crate::check::{check_sections, check_table, find_table};
use crate::sym_fault::SymFault;
use crate::symbol_table::SymbolTable;
use elf_loader::fields::{u16_at, u64_at};
use elf_loader::rules::Broken;

/// Whether the file has section headers.
fn has_sections(file: &[u8]) -> bool
    requires { 64 ≤ length file.now }
    ensures { result ≡ has_sections file.now }
{
    u64_at(file, 40) != 0 && u16_at(file, 60) != 0
}

/// Tries all rules, in their order. Answers the symbol table of a file that keeps them, if there
/// is one.
pub fn accept(file: &[u8]) -> Result<Option<SymbolTable<'_>>, Broken<SymFault>>
    requires { 64 ≤ length file.now }
    ensures rules { Tells result (first_symbol_fault file.now) }
    ensures table { IfOk result (λ table. listed table ≡ symbols_of file.now) }
{
    if !has_sections(file) {
        return Ok(None);
    }
    check_sections(file)?;
    let Some(place) = find_table(file) else {
        return Ok(None);
    };
    check_table(file, place)?;
    let table = SymbolTable::at(file, place);
    table.check_names()?;
    Ok(Some(table))
}
