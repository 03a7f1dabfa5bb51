ghost use Rattle.std.specs.Prelude.{◌≡◌, ◌+◌, ◌*◌, ◌/◌, ◌<◌, ◌≤◌, ℕ, [], length, drop, map, nat_lt, slice_index, Some, IfOk};

use crate::entry::{add_symbol, is_function, is_named, short_symbol_at};
use crate::strings::last_end;
use crate::sym_fault::SymFault;
use crate::symbol::Symbol;
use crate::tallies::Tallies;
use elf_loader::fields::{part, u32_at, u64_at};
use elf_loader::rules::{Broken, refuse};
use std::alloc::{AllocError, Global};

/// A symbol table that lies in its file, with the bytes of the section of its names.
#[derive(Clone, Copy, Debug)]
pub struct SymbolTable<'a> {
    pub file: &'a [u8],
    /// Where its first symbol stands.
    pub first: usize,
    pub count: usize,
    pub strings: &'a [u8],
    ghost inside: { first + 24 * count ≤ length file.now },
}

impl<'a> SymbolTable<'a> {
    ghost use Rattle.guest_words.specs.ElfFields.{e_shoff, e_shnum};
    ghost use Rattle.guest_words.specs.Rules.{first_broken};
    ghost use Rattle.guest_words.specs.Image.{contains};
    ghost use Rattle.elf_loader.specs.Checks.{Tells};
    ghost use Rattle.elf_symbols.specs.SymbolFields.{sh_offset, sh_size, sh_link};
    ghost use Rattle.std.specs.Option.{option_to_list};
    ghost use Rattle.elf_symbols.specs.SymbolTable.{places, name_rule, symbol_at};
    ghost use Rattle.elf_symbols.specs.Listed.{IsTableAt, listed};
    ghost use Rattle.elf_symbols.specs.Find.{values_of};
    ghost use Rattle.elf_symbols.specs.Tallies.{AreTallies};

    /// The table whose section header stands at a place of the file.
    pub(crate) fn at(file: &'a [u8], table: usize) -> SymbolTable<'a>
        requires long { 64 ≤ length file.now }
        requires inside { e_shoff file.now + 64 * e_shnum file.now ≤ length file.now }
        requires within { table + 64 ≤ length file.now }
        requires whole { sh_offset file.now table + sh_size file.now table ≤ length file.now }
        requires linked { sh_link file.now table < e_shnum file.now }
        ensures { IsTableAt file.now table result }
    {
        let link = u32_at(file, table + 40);
        let strings = u64_at(file, 40) as usize + 64 * link as usize;
        SymbolTable {
            file,
            first: u64_at(file, table + 24) as usize,
            count: (u64_at(file, table + 32) / 24) as usize,
            strings: part(file, u64_at(file, strings + 24), u64_at(file, strings + 32)),
        }
    }

    /// Whether a function's name begins at or past the end of all names.
    fn breaks_rule(&self, entry: usize, end: usize) -> bool
        requires room { entry + 24 ≤ length self.now.file.now }
        requires end { (place : ℕ)
            → contains (drop place self.now.strings.now) 0 ≡ nat_lt place end }
        ensures { result ≡ (name_rule self.now.file.now self.now.strings.now entry).broken }
    {
        is_function(self.file, entry) && u32_at(self.file, entry) as usize >= end
    }

    /// Tries the rule on each symbol.
    pub(crate) fn check_names(&self) -> Result<(), Broken<SymFault>>
        ensures { Tells result (first_broken (map (name_rule self.now.file.now self.now.strings.now)
            (places self.now.first 24 self.now.count))) }
    {
        let end = last_end(self.strings);
        for k in 0..self.count {
            let entry = self.first + 24 * k;
            refuse(
                self.breaks_rule(entry, end),
                SymFault::NameOutside,
                entry as u64,
            )?;
        }
        Ok(())
    }

    /// The value of the symbol at a place of the file, if it is a function of this name.
    fn value_named(&self, entry: usize, name: &str) -> Option<u64>
        requires room { entry + 24 ≤ length self.now.file.now }
        ensures { option_to_list result
            ≡ values_of (symbol_at self.now.file.now self.now.strings.now entry) name.now }
    {
        if is_named(self.file, self.strings, entry, name) {
            Some(u64_at(self.file, entry + 8))
        } else {
            None
        }
    }

    /// How many of its functions have the name, and the value of the first of them.
    pub(crate) fn count_named(&self, name: &str) -> (u64, u64)
        ensures count { result.0 ≡ length (values_of (listed (Some self.now)) name.now) }
        ensures first { 0 < result.0
            → result.1 ≡ slice_index (values_of (listed (Some self.now)) name.now) 0 }
    {
        let mut count = 0;
        let mut first = 0;
        for k in 0..self.count {
            if let Some(value) = self.value_named(self.first + 24 * k, name) {
                if count == 0 {
                    first = value;
                }
                count += 1;
            }
        }
        (count, first)
    }

    /// Adds its functions to the tallies, which are over no symbols.
    pub(crate) fn add_all(&self, tallies: &mut Tallies)
        requires { AreTallies [] 0 tallies.old }
        ensures { AreTallies (listed (Some self.now)) self.now.count tallies.new }
    {
        for k in 0..self.count {
            let entry = self.first + 24 * k;
            let symbol = short_symbol_at(self.file, self.strings, entry, tallies.longest);
            if let Some(symbol) = symbol {
                tallies.add(symbol.name.text(), symbol.value);
            }
        }
    }

    /// Its functions whose names are UTF-8, in order.
    pub(crate) fn functions(&self, alloc: Global) -> Result<Vec<Symbol<'a>>, AllocError>
        ensures ok { IfOk result (λ symbols. symbols.items ≡ listed (Some self.now)) }
    {
        let mut symbols = Vec::with_capacity(alloc, self.count)?;
        for k in 0..self.count {
            let entry = self.first + 24 * k;
            add_symbol(&mut symbols, self.file, self.strings, entry)?;
        }
        Ok(symbols)
    }
}
