ghost use Rattle.std.specs.Prelude.{◌≡◌, ℕ, List, Some, IfOk};
ghost use Rattle.elf_symbols.specs.Listed.{listed};
ghost use Rattle.elf_symbols.specs.Tallies.{IsTally, tally_at};
ghost use Rattle.elf_symbols.specs.declared.tally.Tally.{Tally};

use crate::found::Found;
use crate::symbol_table::SymbolTable;
use crate::symbols::Symbols;
use crate::tallies::Tallies;
use std::alloc::{AllocError, Global};
use std::marker::Model;

/// The function symbols of a program, which answers for some names without a walk over them all.
#[derive(Drop)]
pub struct Finder<'a, 'n> {
    table: Option<SymbolTable<'a>>,
    tallies: Tallies<'n>,
    ghost counted: { (name : List ℕ) (tally : Tally)
        → tally_at tallies name ≡ Some tally → IsTally (listed table) name tally },
}

impl<'a, 'n> Model for Finder<'a, 'n> {
    ghost use Rattle.std.specs.Prelude.{List};
    ghost use Rattle.elf_symbols.specs.declared.symbol.Symbol.{Symbol};
    ghost use Rattle.elf_symbols.specs.Listed.{listed};

    ghost Value = { List Symbol };

    ghost view = { λ f. listed f.table };
}

impl<'a, 'n> Finder<'a, 'n> {
    ghost use Rattle.elf_symbols.specs.Find.{found_of};

    /// The symbols, all of which are walked over once, for the names that are wanted.
    pub fn of(
        alloc: Global,
        symbols: &Symbols<'a>,
        names: &[&'n str],
    ) -> Result<Finder<'a, 'n>, AllocError>
        ensures list { IfOk result (λ finder. finder ≡ symbols.now) }
    {
        let mut tallies = Tallies::of(alloc, names)?;
        let table = symbols.table();
        if let Some(table) = &table {
            table.add_all(&mut tallies);
        }
        Ok(Finder { table, tallies })
    }

    /// Whether one symbol has the name, none, or several. A name that was not wanted is looked for
    /// by a walk over all symbols.
    pub fn find(&self, name: &str) -> Found
        ensures found { result ≡ found_of self.now name.now }
    {
        match self.tallies.by_name.get(name) {
            Some(tally) => tally.found(),
            None => Symbols::of(self.table).find(name),
        }
    }
}
