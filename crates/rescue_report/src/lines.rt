ghost use Rattle.std.specs.Prelude.{◌≡◌, ◌++◌, IfOk, OnOk, string_bytes};
ghost use Rattle.rescue_report.specs.Lines.{count_line, end_line, rescue_line, spent_line};

use crate::counts::Counts;
use crate::numbers::{put_code, put_hexadecimal};
use guest_words::{Ending, Fault, MemoryWant, PointRef, Ret};
use std::alloc::Global;

/// Few lines of a rescued call are longer.
const ROOM: usize = 160;

/// Appends the line of a number with its name.
pub fn put_count(text: &mut String, name: &str, number: u128) -> Result<(), MemoryWant>
    ensures ok { OnOk result
        (string_bytes text.new ≡ string_bytes text.old ++ count_line name.now number) }
{
    writeln!(text, "{name} {number}")?;
    Ok(())
}

/// The line of a rescued call, by how deep it lies in others, what its inside holds and what it
/// returned. Most have room at first.
pub(crate) fn rescue_line(
    alloc: Global,
    depth: u128,
    hart: u8,
    point: PointRef,
    fault: Fault,
    inside: Counts,
    code: Ret,
) -> Result<String, MemoryWant>
    ensures ok { IfOk result
        (λ text. string_bytes text
        ≡ rescue_line depth hart point fault inside.steps inside.records code) }
{
    let mut line = String::with_capacity(alloc, ROOM)?;
    put_rescue_line(&mut line, depth, hart, point, fault, inside, code)?;
    Ok(line)
}

fn put_rescue_line(
    text: &mut String,
    depth: u128,
    hart: u8,
    point: PointRef,
    fault: Fault,
    inside: Counts,
    code: Ret,
) -> Result<(), MemoryWant>
    ensures ok { OnOk result
        (string_bytes text.new ≡ string_bytes text.old
        ++ rescue_line depth hart point fault inside.steps inside.records code) }
{
    let Counts { steps, records, .. } = inside;
    let name = fault.name.name();
    write!(text, "rescue depth {depth} hart {hart} point ")?;
    put_hexadecimal(text, point.entry)?;
    write!(text, " fault {name} pc ")?;
    put_hexadecimal(text, fault.pc)?;
    write!(text, " steps {steps} records {records} code ")?;
    put_code(text, code)?;
    text.push_str("\n")?;
    Ok(())
}

/// Appends the line of a point to which no rescue is left.
pub(crate) fn put_spent_line(text: &mut String, entry: u64) -> Result<(), MemoryWant>
    ensures ok { OnOk result (string_bytes text.new ≡ string_bytes text.old ++ spent_line entry) }
{
    text.push_str("spent point ")?;
    put_hexadecimal(text, entry)?;
    text.push_str("\n")?;
    Ok(())
}

/// Appends the last line.
pub(crate) fn put_end(text: &mut String, ending: &Ending) -> Result<(), MemoryWant>
    ensures ok { OnOk result
        (string_bytes text.new ≡ string_bytes text.old ++ end_line ending.now) }
{
    match *ending {
        Ending::Exit { code, .. } => writeln!(text, "end exit {code}")?,
        Ending::Fault { hart, fault } => put_fault(text, hart, fault)?,
        Ending::Stuck => text.push_str("end stuck\n")?,
        Ending::Budget => text.push_str("end budget\n")?,
    }
    Ok(())
}

fn put_fault(text: &mut String, hart: u8, fault: Fault) -> Result<(), MemoryWant>
    ensures ok { OnOk result
        (string_bytes text.new ≡ string_bytes text.old ++ end_line (Ending.Fault hart fault)) }
{
    let name = fault.name.name();
    write!(text, "end fault {name} hart {hart} pc ")?;
    put_hexadecimal(text, fault.pc)?;
    text.push_str("\n")?;
    Ok(())
}
