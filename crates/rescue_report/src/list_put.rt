ghost use Rattle.std.specs.Prelude.{◌≡◌, ◌++◌, [], OnErr, OnOk, map};
ghost use Rattle.std.specs.List.{flat_map};
ghost use Rattle.rescue_report.specs.List.{symbol_line, symbol_of};
ghost use Rattle.rescue_report.specs.ListPuts.{BreaksFront, PutsFront, PutsLines};

use crate::digits::Digits;
use crate::gathered::Gathered;
use crate::list::{Row, ordered_rows};
use crate::list_fault::ListFault;
use edge_ports::{Failed, Sink};
use elf_symbols::Symbols;
use std::alloc::Global;

/// Puts the line of a symbol: its value, its size and its name.
fn put_row<R: Sink>(gathered: &mut Gathered, sink: &mut R, row: &Row) -> Result<(), Failed>
    ensures ok { OnOk result
        (PutsFront (gathered.old ++ symbol_line (symbol_of row.now)) gathered.new
        (R.end sink.old) (R.end sink.new)) }
    ensures breaks { OnErr result
        (BreaksFront (gathered.old ++ symbol_line (symbol_of row.now))
        (R.end sink.old) (R.end sink.new)) }
{
    let (value, name, size) = *row;
    let value = Digits::hexadecimal(value);
    let size = Digits::decimal(size);
    gathered.put_all(
        sink,
        &[
            value.as_slice(),
            b" ",
            size.as_slice(),
            b" ",
            name.as_bytes(),
            b"\n",
        ],
    )
}

/// Puts the lines of the rows behind what is gathered, and leaves nothing gathered.
fn put_rows<R: Sink>(gathered: &mut Gathered, sink: &mut R, rows: &[Row]) -> Result<(), Failed>
    ensures ok { OnOk result
        (PutsFront (gathered.old ++ flat_map symbol_line (map symbol_of rows.now)) []
        (R.end sink.old) (R.end sink.new)) }
    ensures breaks { OnErr result
        (BreaksFront (gathered.old ++ flat_map symbol_line (map symbol_of rows.now))
        (R.end sink.old) (R.end sink.new)) }
{
    for row in rows {
        put_row(gathered, sink, row)?;
    }
    gathered.finish(sink)
}

/// Puts the list of a program's symbols, some lines at a time: a line for each, with its value, its
/// size and its name, ordered by value, then by the bytes of the name, then by size. All memory is
/// taken before the first put. Where the sink fails, the front of the list may have been put.
pub fn put_list<R: Sink>(alloc: Global, sink: &mut R, symbols: &Symbols) -> Result<(), ListFault>
    ensures puts { PutsLines symbols.now result (R.end sink.old) (R.end sink.new) }
{
    let Ok(rows) = ordered_rows(alloc, symbols) else {
        return Err(ListFault::Memory);
    };
    let Ok(mut gathered) = Gathered::new(alloc) else {
        return Err(ListFault::Memory);
    };
    match put_rows(&mut gathered, sink, &rows) {
        Ok(()) => Ok(()),
        Err(Failed) => Err(ListFault::Lost),
    }
}
