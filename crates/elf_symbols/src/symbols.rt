ghost use Rattle.std.specs.Prelude.{◌≡◌, IfOk};
ghost use Rattle.elf_symbols.specs.Listed.{listed};

use crate::found::Found;
use crate::symbol::Symbol;
use crate::symbol_table::SymbolTable;
use std::alloc::{AllocError, Global};
use std::marker::Model;

/// The function symbols of a program, in the order of its table. They stay in the file, and are
/// looked for there.
#[derive(Drop)]
pub struct Symbols<'a> {
    table: Option<SymbolTable<'a>>,
}

impl<'a> Model for Symbols<'a> {
    ghost use Rattle.std.specs.Prelude.{List};
    ghost use Rattle.elf_symbols.specs.declared.symbol.Symbol.{Symbol};
    ghost use Rattle.elf_symbols.specs.Listed.{listed};

    ghost Value = { List Symbol };

    ghost view = { λ s. listed s.table };
}

impl<'a> Symbols<'a> {
    ghost use Rattle.elf_symbols.specs.Find.{found_of};

    /// The symbols of the table, and none without one.
    pub fn of(table: Option<SymbolTable<'a>>) -> Symbols<'a>
        ensures list { result ≡ listed table.entry }
    {
        Symbols { table }
    }

    /// The table that they stand in.
    pub(crate) fn table(&self) -> Option<SymbolTable<'a>>
        ensures { listed result ≡ self.now }
    {
        self.table
    }

    /// The symbols, in order.
    pub fn to_vec(&self, alloc: Global) -> Result<Vec<Symbol<'a>>, AllocError>
        ensures ok { IfOk result (λ symbols. symbols.items ≡ self.now) }
    {
        match &self.table {
            None => Ok(Vec::new(alloc)),
            Some(table) => table.functions(alloc),
        }
    }

    /// Whether one symbol has the name, none, or several.
    pub fn find(&self, name: &str) -> Found
        ensures found { result ≡ found_of self.now name.now }
    {
        let Some(table) = &self.table else {
            return Found::Absent;
        };
        let (count, first) = table.count_named(name);
        match count {
            0 => Found::Absent,
            1 => Found::One(first),
            _ => Found::Several(count),
        }
    }
}
