ghost use Rattle.std.specs.Prelude.{◌≡◌, ◌++◌, IfOk, OnOk, string_bytes};
ghost use Rattle.rescue_report.specs.Report.{report_of, spent_lines};
ghost use Rattle.rescue_report.specs.Rescues.{rescue_lines, rescue_lines_of_all, rescued_lines};

use crate::counts::{Counts, sum};
use crate::lines::{put_count, put_end, put_spent_line, rescue_line};
use guest_words::{Bytes, Ending, Fault, MemoryWant, Point, PointRef, Points};
use run_history::{Entry, History};
use std::alloc::Global;

/// The report on a run with this history, these points at its end and this ending, in ASCII: its
/// head, the sums of the history, a line for each rescued call, each followed by those of its
/// inside, a line for each point to which no rescue is left, and the ending.
pub fn report_text(
    alloc: Global,
    history: &History,
    points: &Points,
    ending: &Ending,
) -> Result<Bytes, MemoryWant>
    ensures ok { IfOk result
        (λ text. text ≡ report_of history.now.entries points.now ending.now) }
{
    let entries = history.items();
    let counts = Counts::of(entries)?;
    let mut text = String::from_str(alloc, "rescue-report 1\n")?;
    put_count(&mut text, "steps", counts.steps)?;
    put_count(&mut text, "records", counts.records)?;
    put_count(&mut text, "rescues", counts.rescues)?;
    put_rescues(alloc, &mut text, points, entries, 0)?;
    put_spent(&mut text, points.items())?;
    put_end(&mut text, ending)?;
    Ok(Bytes::of(text.into_bytes()))
}

fn put_spent(text: &mut String, points: &[Point]) -> Result<(), MemoryWant>
    ensures ok { OnOk result
        (string_bytes text.new ≡ string_bytes text.old ++ spent_lines points.now) }
{
    for point in points {
        if matches!(point.left, Some(0)) {
            put_spent_line(text, point.entry)?;
        }
    }
    Ok(())
}

#[cycle(rescues)]
fn put_rescues(
    alloc: Global,
    text: &mut String,
    points: &Points,
    entries: &[Entry],
    depth: u128,
) -> Result<(), MemoryWant>
    ensures ok { OnOk result
        (string_bytes text.new
        ≡ string_bytes text.old ++ rescue_lines_of_all points.now entries.now depth) }
{
    for entry in entries {
        put_entry(alloc, text, points, entry, depth)?;
    }
    Ok(())
}

#[cycle(rescues)]
#[tactic(auto, unfolding(crate::specs::Rescues::rescue_lines))]
fn put_entry(
    alloc: Global,
    text: &mut String,
    points: &Points,
    entry: &Entry,
    depth: u128,
) -> Result<(), MemoryWant>
    ensures ok { OnOk result
        (string_bytes text.new ≡ string_bytes text.old ++ rescue_lines points.now entry.now depth) }
{
    match entry {
        Entry::Rescued {
            hart,
            point,
            fault,
            inside,
        } => put_rescue(
            alloc,
            text,
            points,
            *hart,
            *point,
            *fault,
            inside.as_slice(),
            depth,
        ),
        _ => Ok(()),
    }
}

#[cycle(rescues)]
fn put_rescue(
    alloc: Global,
    text: &mut String,
    points: &Points,
    hart: u8,
    point: PointRef,
    fault: Fault,
    inside: &[Entry],
    depth: u128,
) -> Result<(), MemoryWant>
    ensures ok { OnOk result
        (string_bytes text.new
        ≡ string_bytes text.old ++ rescued_lines points.now hart point fault inside.now depth) }
{
    let code = points.code(point.entry, fault.name);
    let line = rescue_line(alloc, depth, hart, point, fault, Counts::of(inside)?, code)?;
    text.push_str(line.as_str())?;
    put_rescues(alloc, text, points, inside, sum(depth, 1)?)
}
