ghost use Rattle.std.specs.Prelude.{IfOk, map};
ghost use Rattle.rescue_report.specs.List.{IsOrdered, symbol_of};

use elf_symbols::{Symbol, Symbols};
use guest_words::MemoryWant;
use std::alloc::Global;

/// A symbol as what its list is ordered by: its value, its name and its size.
pub(crate) type Row<'a> = (u64, &'a str, u64);

/// The symbols of a program in the order of their list: by value, then by the bytes of the name,
/// then by size.
pub(crate) fn ordered_rows<'a>(
    alloc: Global,
    symbols: &Symbols<'a>,
) -> Result<Vec<Row<'a>>, MemoryWant>
    ensures ok { IfOk result
        (λ rows. IsOrdered symbols.now (map symbol_of rows.items)) }
{
    let symbols = symbols.to_vec(alloc)?;
    sorted_rows(alloc, &symbols)
}

fn sorted_rows<'a>(alloc: Global, symbols: &[Symbol<'a>]) -> Result<Vec<Row<'a>>, MemoryWant>
    ensures ok { IfOk result
        (λ rows. IsOrdered symbols.now (map symbol_of rows.items)) }
{
    let mut rows = Vec::with_capacity(alloc, symbols.len())?;
    for symbol in symbols {
        rows.push((symbol.value, symbol.name.text(), symbol.size))?;
    }
    rows.sort_unstable();
    Ok(rows)
}
