ghost use Rattle.std.specs.Prelude.{◌≡◌, ◌++◌, IfOk, OnOk, string_bytes};
ghost use Rattle.rescue_report.specs.Summary.{summary_of, sum_line};

use crate::counts::Counts;
use crate::lines::{put_count, put_end};
use elf_loader::fields::u64_at;
use guest_words::{Bytes, Ending, MemoryWant};
use run_history::History;
use std::alloc::Global;

/// The summary of the run of the load of a number, by the length of its input, what it wrote to its
/// output, its history and its ending.
pub fn summary_text(
    alloc: Global,
    number: u64,
    bytes: u64,
    out: &Bytes,
    history: &History,
    ending: &Ending,
) -> Result<Bytes, MemoryWant>
    ensures ok { IfOk result
        (λ text. text ≡ summary_of number bytes out.now history.now.entries ending.now) }
{
    let counts = Counts::of(history.items())?;
    let mut text = String::new(alloc);
    put_count(&mut text, "load", u128::from(number))?;
    put_count(&mut text, "bytes", u128::from(bytes))?;
    put_sum(&mut text, out.items())?;
    put_count(&mut text, "steps", counts.steps)?;
    put_count(&mut text, "records", counts.records)?;
    put_count(&mut text, "rescues", counts.rescues)?;
    put_end(&mut text, ending)?;
    Ok(Bytes::of(text.into_bytes()))
}

/// Appends the line of the sum that the load wrote.
fn put_sum(text: &mut String, out: &[u8]) -> Result<(), MemoryWant>
    ensures ok { OnOk result
        (string_bytes text.new ≡ string_bytes text.old ++ sum_line out.now) }
{
    if out.len() == 8 {
        put_count(text, "sum", u128::from(u64_at(out, 0)))
    } else {
        text.push_str("sum none\n")?;
        Ok(())
    }
}
