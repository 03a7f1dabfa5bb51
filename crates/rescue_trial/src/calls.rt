//! The calls that a hart is in, act by act.
ghost use Rattle.std.specs.Prelude.{◌≡◌, [], Option, true, slice_get, IfOk, OnOk};
ghost use Rattle.guest_words.specs.declared.hart.Slot.{Slot};
ghost use Rattle.run_history.specs.After.{after, next, ran};
ghost use Rattle.run_history.specs.Legal.{IsLegal, can_go, can_run};
ghost use Rattle.run_history.specs.Run.{IsRun};
ghost use Rattle.rescue_trial.specs.Begins.{begins};
ghost use Rattle.rescue_trial.specs.Path.{calls_after, calls_by, calls_in, calls_over, calls_ran};
ghost use Rattle.rescue_trial.specs.Path.{is_free_slot, stepped};

use crate::functions::Functions;
use guest_words::{Frame, Hart, HartState, MemoryWant, PointRef};
use plain_machine::Plain;
use point_frames::{closed_after, opened};
use run_history::Entry;
use std::alloc::Global;

// After an act of the hart's own.
fn follow(functions: &Functions, hart: &Hart, calls: &mut Vec<Frame>) -> Result<(), MemoryWant>
    ensures ok { OnOk result
        (calls.new.items ≡ calls_after (begins functions.now) hart.now calls.old.items) }
{
    calls.truncate(closed_after(hart, calls));
    if hart.arrived && functions.has(hart.pc) {
        calls.push(opened(hart, PointRef { entry: hart.pc }))?;
    }
    Ok(())
}

// Whether a new hart can take the slot; false where no slot is.
fn is_free(plain: &Plain, hart: u8) -> bool
    ensures value { result ≡ is_free_slot (slice_get plain.now.slots hart) }
{
    match plain.hart(hart) {
        Some(hart) => matches!(hart.state, HartState::Empty | HartState::Gone(_)),
        None => false,
    }
}

// After an act of an actor, by whether the hart's slot was free before.
fn follow_act(
    functions: &Functions,
    hart: u8,
    actor: u8,
    was_free: bool,
    plain: &Plain,
    calls: &mut Vec<Frame>,
) -> Result<(), MemoryWant>
    ensures ok { (before : Option Slot) → is_free_slot before ≡ was_free → OnOk result
        (calls.new.items ≡ calls_in (begins functions.now) hart actor before
        (slice_get plain.now.slots hart) calls.old.items) }
{
    let Some(now) = plain.hart(hart) else {
        return Ok(());
    };
    if actor == hart {
        return follow(functions, now, calls);
    }
    if was_free && matches!(now.state, HartState::Ready) {
        calls.clear();
    }
    Ok(())
}

// Makes an ordinary act of an actor.
fn make_act(
    alloc: Global,
    functions: &Functions,
    hart: u8,
    actor: u8,
    plain: &mut Plain,
    calls: &mut Vec<Frame>,
) -> Result<(), MemoryWant>
    requires goes { can_go plain.old actor ≡ true }
    ensures after { OnOk result (plain.new ≡ next plain.old actor) }
    ensures calls { OnOk result (calls.new.items
        ≡ stepped (begins functions.now) hart actor plain.old
        (next plain.old actor) calls.old.items) }
{
    let was_free = is_free(plain, hart);
    if !plain.go(alloc, actor)? {
        unreachable!();
    }
    follow_act(functions, hart, actor, was_free, plain, calls)
}

// Makes so many ordinary acts of an actor.
fn make_acts(
    alloc: Global,
    functions: &Functions,
    hart: u8,
    actor: u8,
    count: u32,
    plain: &mut Plain,
    calls: &mut Vec<Frame>,
) -> Result<(), MemoryWant>
    requires runs { can_run plain.old actor count ≡ true }
    ensures after { OnOk result (plain.new ≡ ran plain.old actor count) }
    ensures calls { OnOk result (calls.new.items
        ≡ calls_ran (begins functions.now) hart actor count plain.old calls.old.items) }
{
    let mut left = count;
    while left > 0 {
        make_act(alloc, functions, hart, actor, plain, calls)?;
        left -= 1;
    }
    Ok(())
}

// Makes an entry of a run.
fn make_entry(
    alloc: Global,
    functions: &Functions,
    hart: u8,
    plain: Plain,
    entry: &Entry,
    calls: &mut Vec<Frame>,
) -> Result<Plain, MemoryWant>
    requires legal { IsLegal plain entry.now }
    ensures after { IfOk result (λ later. later ≡ after plain entry.now) }
    ensures calls { OnOk result
        (calls.new.items ≡ calls_by (begins functions.now) hart plain entry.now calls.old.items) }
{
    let mut plain = plain;
    match entry {
        Entry::Ran { hart: actor, count } => {
            make_acts(alloc, functions, hart, *actor, *count, &mut plain, calls)?;
            Ok(plain)
        }
        Entry::Called { hart: actor, .. } => {
            let was_free = is_free(&plain, hart);
            let later = plain.after(alloc, entry)?;
            follow_act(functions, hart, *actor, was_free, &later, calls)?;
            Ok(later)
        }
        _ => plain.after(alloc, entry),
    }
}

/// The calls that a hart is in after a run without points, the innermost last.
pub(crate) fn calls_of(
    alloc: Global,
    functions: &Functions,
    hart: u8,
    start: Plain,
    entries: &[Entry],
) -> Result<Vec<Frame>, MemoryWant>
    requires run { IsRun start entries.now }
    ensures ok { IfOk result (λ calls.
        calls.items ≡ calls_over (begins functions.now) hart start entries.now []) }
{
    let mut plain = start;
    let mut calls = Vec::new(alloc);
    for entry in entries {
        plain = make_entry(alloc, functions, hart, plain, entry, &mut calls)?;
    }
    Ok(calls)
}
