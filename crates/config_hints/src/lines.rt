ghost use Rattle.std.specs.Prelude.{◌≡◌, ◌++◌, IfOk, OnOk, string_bytes};
ghost use Rattle.toml.specs.View.{table_view};
ghost use Rattle.rescue_config.specs.Version.{version_of};
ghost use Rattle.config_hints.specs.Explanation.{explanation_of, fault_explanation_of, hint_line};
ghost use Rattle.config_hints.specs.Right.{right_of};
ghost use Rattle.config_hints.specs.Tables.{table_at};
ghost use Rattle.config_hints.specs.Wrong.{wrong_of};

use crate::right::put_right;
use crate::tables::{read_file, table_at};
use crate::wrong::put_wrong;
use elf_symbols::Symbols;
use guest_words::{Bytes, MemoryWant, Span};
use rescue_config::{PointFault, PointsFault, read_points};
use std::alloc::Global;
use toml::Table;

fn put_wrong_line(
    lines: &mut String,
    file: &Table,
    table: &Table,
    place: Option<u32>,
    fault: PointFault,
) -> Result<(), MemoryWant>
    ensures ok { OnOk result
        (string_bytes lines.new ≡ string_bytes lines.old ++ hint_line
        (wrong_of (version_of (table_view file.now)) (table_view table.now) place fault)) }
{
    lines.push_str("  ")?;
    put_wrong(lines, file, table, place, fault)?;
    lines.push_str("\n")?;
    Ok(())
}

fn put_right_line(
    lines: &mut String,
    text: &[Span],
    place: Option<u32>,
    fault: PointFault,
) -> Result<(), MemoryWant>
    ensures ok { OnOk result
        (string_bytes lines.new ≡ string_bytes lines.old
        ++ hint_line (right_of text.now place fault)) }
{
    lines.push_str("  ")?;
    put_right(lines, text, place, fault)?;
    lines.push_str("\n")?;
    Ok(())
}

/// Two lines on the rule that a rescue file breaks: what is wrong, and what would be right. Each is
/// ASCII, begins with two spaces and ends with a line feed.
///
/// `fault` and `place` are those of the refusal, as [`read_points`] names them, or
/// [`PointFault::LooseHere`] with the number of a loose point. What they name is looked up in the
/// file: an unknown key, the function or the entry of a point. Where the file has nothing there,
/// the name is empty, and the entry 0. `text` are the ranges of the executable loads.
///
/// Of a name the first 60 bytes are shown, and `?` for each that ASCII doesn't print.
pub fn fault_explanation(
    alloc: Global,
    file: &[u8],
    text: &[Span],
    fault: PointFault,
    place: Option<u32>,
) -> Result<Bytes, MemoryWant>
    ensures ok { IfOk result
        (λ lines. lines ≡ fault_explanation_of file.now text.now fault place) }
{
    let file = read_file(alloc, file)?;
    let empty = Table::new(alloc);
    let table = table_at(&file, &empty, place);
    let mut lines = String::new(alloc);
    put_wrong_line(&mut lines, &file, table, place, fault)?;
    put_right_line(&mut lines, text, place, fault)?;
    Ok(Bytes::of(lines.into_bytes()))
}

/// The lines of [`fault_explanation`] on the first rule that a rescue file breaks, and no line on a
/// file that keeps the rules. The arguments are those of [`read_points`].
pub fn explanation(
    alloc: Global,
    file: &[u8],
    symbols: &Symbols,
    text: &[Span],
) -> Result<Bytes, MemoryWant>
    ensures ok { IfOk result
        (λ lines. lines ≡ explanation_of file.now symbols.now text.now) }
{
    match read_points(alloc, file, symbols, text) {
        Ok(_) => Ok(Bytes::of(Vec::new(alloc))),
        Err(PointsFault::Points { fault, place }) => {
            fault_explanation(alloc, file, text, fault, place)
        }
        Err(PointsFault::Memory) => Err(MemoryWant),
    }
}
