ghost use Rattle.std.specs.Prelude.{◌≡◌, None};
ghost use Rattle.guest_words.specs.Image.{first_fault};
ghost use Rattle.elf_symbols.specs.SymbolTable.{first_symbol_fault, symbols_of};

use elf_symbols::{Symbols, functions};
use guest_words::Bytes;
use std::marker::Model;

/// A program whose symbols are to be listed. They stay in its file, which breaks no rule.
#[derive(Drop)]
pub struct Listing {
    program: Bytes,
}

impl Model for Listing {
    ghost use Rattle.std.specs.Prelude.{◌≡◌, List, None};
    ghost use Rattle.guest_words.specs.Image.{first_fault};
    ghost use Rattle.elf_symbols.specs.declared.symbol.Symbol.{Symbol};
    ghost use Rattle.elf_symbols.specs.SymbolTable.{first_symbol_fault, symbols_of};
    ghost use Rattle.rescue_run.specs.Loading.{IsNamed};

    ghost Value = { List Symbol };

    ghost view = { λ l. symbols_of l.program };

    ghost invariant = { λ l. IsNamed l.program };
}

impl Listing {
    /// The symbols of this program.
    pub fn of(program: Bytes) -> Listing
        requires accepted { first_fault program ≡ None }
        requires kept { first_symbol_fault program ≡ None }
        ensures list { result ≡ symbols_of program }
    {
        Listing { program }
    }

    /// The symbols.
    pub fn symbols(&self) -> Symbols<'_>
        ensures list { result ≡ self.now }
    {
        match functions(self.program.items()) {
            Ok(symbols) => symbols,
            // Never, since the file breaks no rule.
            Err(_) => Symbols::of(None),
        }
    }
}
