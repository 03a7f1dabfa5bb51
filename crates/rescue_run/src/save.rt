//! The history of a run, saved behind its report.
ghost use Rattle.std.specs.Prelude.{◌≡◌, IfOk};
ghost use Rattle.history_file.specs.HistoryBytes.{history_bytes};
ghost use Rattle.history_file.specs.Spelled.{IsHead};
ghost use Rattle.rescue_run.specs.Saves.{SavesBehind, SavesRun};
ghost use Rattle.rescue_run.specs.Top.{sides};

use crate::outcome::Outcome;
use crate::put::put_memory;
use edge_ports::{Shelf, ShelfFault, Sink};
use guest_words::{Bytes, Ending, MemoryWant, Name};
use history_file::{Head, can_spell, spell};
use run_history::History;
use std::alloc::Global;

/// The history file of a run. A history that has no spelling, since more than 16 rescued calls
/// stand within each other or a length doesn't fit its field, counts as want of memory. A run
/// makes none: its harts have at most 16 frames each, and its lengths fit the guest's memory.
fn file_of(alloc: Global, head: &Head, history: &History) -> Result<Bytes, MemoryWant>
    requires head { IsHead head.now }
    ensures ok { IfOk result (λ bytes. bytes ≡ history_bytes head.now history.now.entries) }
{
    if can_spell(history) {
        spell(alloc, head, history)
    } else {
        Err(MemoryWant)
    }
}

/// Saves the history of a run that ended, and answers what the command comes to.
fn save_run<F: Shelf, R: Sink>(
    alloc: Global,
    name: &Name,
    head: &Head,
    history: &History,
    ending: Ending,
    report: &mut R,
    shelf: &mut F,
) -> Outcome
    requires head { IsHead head.now }
    ensures saves { SavesRun name.now (history_bytes head.now history.now.entries) ending result
        (sides (F.seen shelf.old) (F.seen shelf.new) (R.end report.old) (R.end report.new)) }
{
    let Ok(bytes) = file_of(alloc, head, history) else {
        return put_memory(report);
    };
    match shelf.save(alloc, name.items(), &bytes) {
        Ok(()) => Outcome::Ended(ending),
        Err(ShelfFault::Memory) => put_memory(report),
        // A save is never too long.
        Err(_) => Outcome::Save { ending },
    }
}

/// Saves the history of a run behind the put of its report, which came to this outcome: where a
/// name is given, the run ended and the report was put.
pub fn save_behind<F: Shelf, R: Sink>(
    alloc: Global,
    save: &Option<Name>,
    head: &Head,
    history: &History,
    outcome: Outcome,
    report: &mut R,
    shelf: &mut F,
) -> Outcome
    requires head { IsHead head.now }
    ensures saves { SavesBehind save.now (history_bytes head.now history.now.entries) outcome result
        (sides (F.seen shelf.old) (F.seen shelf.new) (R.end report.old) (R.end report.new)) }
{
    let Some(name) = save else {
        return outcome;
    };
    match outcome {
        Outcome::Ended(ending) => save_run(alloc, name, head, history, ending, report, shelf),
        _ => outcome,
    }
}
