//! The call path of a hart.
ghost use Rattle.std.specs.Prelude.{◌≡◌, ◌≤◌, ◌==◌, [], ◌∷◌, ◌++◌, if◌then◌else◌, IfOk, OnOk};
ghost use Rattle.std.specs.Prelude.{map, reverse, take};
ghost use Rattle.std.specs.List.{list_any};
ghost use Rattle.guest_words.specs.declared.limits.TheConstants.{BUDGET, HARTS};
ghost use Rattle.guest_words.specs.Image.{IsLoadList};
ghost use Rattle.guest_words.specs.Start.{start_of};
ghost use Rattle.run_history.specs.Run.{IsRun};
ghost use Rattle.rescue_trial.specs.Path.{call_path_of, firsts};

use crate::calls::calls_of;
use crate::functions::Functions;
use elf_symbols::Symbols;
use guest_words::{Frame, Image, MemoryWant, Points};
use machine_core::Limits;
use plain_machine::Plain;
use run_history::History;
use std::alloc::Global;

/// How many functions a call path has at most.
const MOST: usize = 64;

// Puts an entry last, if it isn't there.
fn put_once(path: &mut Vec<u64>, entry: u64) -> Result<(), MemoryWant>
    ensures ok { OnOk result (path.new.items ≡ (if list_any (λ e. e == entry) path.old.items
        then path.old.items else path.old.items ++ entry ∷ [])) }
{
    if !path.contains(&entry) {
        path.push(entry)?;
    }
    Ok(())
}

// The entries of calls, the innermost first, each once, as many as a path has at most.
fn entries_of(alloc: Global, calls: Vec<Frame>) -> Result<Vec<u64>, MemoryWant>
    ensures ok { IfOk result (λ path.
        path.items ≡ take 64 (firsts (map (λ call. call.point.entry) (reverse calls.items)))) }
{
    let mut calls = calls;
    let mut path = Vec::new(alloc);
    while path.len() < MOST {
        match calls.pop() {
            Some(call) => put_once(&mut path, call.point.entry)?,
            None => return Ok(path),
        }
    }
    Ok(path)
}

/// The call path of a hart at the end of a run without points and ports, by its jumps and its
/// stack: the functions whose calls it is in, the innermost first, each once, at most 64. Of a hart
/// that isn't ready it tells nothing.
pub fn call_path(
    alloc: Global,
    image: &Image,
    symbols: &Symbols,
    limits: &Limits,
    history: &History,
    hart: u8,
) -> Result<Vec<u64>, MemoryWant>
    requires image { IsLoadList image.now.loads }
    requires some { 1 ≤ limits.now.harts }
    requires most { limits.now.harts ≤ HARTS }
    requires budget { limits.now.budget ≤ BUDGET }
    requires run { IsRun (start_of image.now [] limits.now.harts 0 limits.now.budget)
        history.now.entries }
    ensures path { IfOk result (λ path. path.items
        ≡ call_path_of image.now.loads symbols.now
        (start_of image.now [] limits.now.harts 0 limits.now.budget) history.now.entries hart) }
{
    let functions = Functions::of(alloc, &image.loads, symbols)?;
    let none = Points::of(Vec::new(alloc));
    let start = Plain::start(alloc, image, &none, limits.harts, 0, limits.budget)?;
    let calls = calls_of(alloc, &functions, hart, start, history.items())?;
    entries_of(alloc, calls)
}
