ghost use Rattle.std.specs.Prelude.{◌≡◌, ◌↔◌, ℕ, None, Some, IfOk, OnOk, IsErrOf};
ghost use Rattle.guest_words.specs.Image.{first_fault};
ghost use Rattle.elf_symbols.specs.declared.sym_fault.SymFault.{SymFault};
ghost use Rattle.elf_symbols.specs.SymbolTable.{first_symbol_fault, symbols_of};

use crate::accept::accept;
use crate::symbols::Symbols;
use crate::symbols_fault::SymbolsFault;

/// The function symbols of a program file that the loader accepts, in the order of its symbol
/// table, or the first rule on symbols that it breaks with the offset in bytes. The rules are
/// those of the ELF format (System V gABI, 'Sections' and 'Symbol Table'); see
/// [`SymFault`](crate::SymFault) for them in their order. The symbols stay in the file: they take
/// no memory. A function whose name isn't UTF-8 is left out.
pub fn functions(bytes: &[u8]) -> Result<Symbols<'_>, SymbolsFault>
    requires accepted { first_fault bytes.now ≡ None }
    ensures ok { IfOk result (λ symbols. symbols ≡ symbols_of bytes.now) }
    ensures kept { OnOk result (first_symbol_fault bytes.now ≡ None) }

    // A rule is named exactly where it is the first one that is broken.
    ensures cause { (fault : SymFault) (offset : ℕ)
        → IsErrOf result (record { fault = fault; offset = offset })
        ↔ (first_symbol_fault bytes.now ≡ Some (fault, offset)) }
{
    match accept(bytes) {
        Ok(table) => Ok(Symbols::of(table)),
        Err((fault, offset)) => Err(SymbolsFault { fault, offset }),
    }
}
