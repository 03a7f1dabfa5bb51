//! The trials of a call path.
ghost use Rattle.std.specs.Prelude.{◌≡◌, [], ◌∷◌, IfOk};
ghost use Rattle.std.specs.List.{AllZip};
ghost use Rattle.guest_words.specs.Word.{word_of};
ghost use Rattle.rescue_report.specs.Rescues.{rescues_of_all};
ghost use Rattle.rescue_trial.specs.Path.{call_path_of};
ghost use Rattle.trial_runs.specs.Subjects.{start_with, CanTry};
ghost use Rattle.trial_runs.specs.Trials.{point_at, AreTries, IsTrial, RunsTo};

use crate::run::{Ran, run};
use crate::subject::Subject;
use crate::tries::Tries;
use elf_symbols::Symbols;
use guest_words::{Ending, Kind, MemoryWant, Point, Points, Ret};
use rescue_report::Counts;
use rescue_trial::{Trial, Trials, call_path};
use run_history::History;
use std::alloc::Global;

/// A point that blocks, returns this for each fault and has no limit.
fn point_at(code: u64, entry: u64) -> Point
    ensures value { result ≡ point_at code entry }
{
    Point {
        entry,
        codes: [Ret::Code(code); 8],
        kind: Kind::Blocking,
        left: None,
    }
}

/// How many calls were rescued in a history, at all depths. A number past 64 bits fits in no memory.
fn count_rescues(history: &History) -> Result<u64, MemoryWant>
    ensures ok { IfOk result (λ count. count ≡ rescues_of_all history.now.entries) }
{
    let counts = Counts::of(history.items())?;
    match u64::try_from(counts.rescues) {
        Ok(rescues) => Ok(rescues),
        Err(_) => Err(MemoryWant),
    }
}

/// What the run with this single point comes to.
fn try_point(alloc: Global, subject: &Subject, code: u64, entry: u64) -> Result<Trial, MemoryWant>
    requires can { CanTry subject.now }
    ensures trial { IfOk result (IsTrial subject.now code entry) }
{
    let points = Points::of(vec![in alloc; point_at(code, entry)]?);
    let ran = run(alloc, subject, &points)?;
    let rescues = count_rescues(&ran.history)?;
    Ok(Trial {
        entry,
        ending: ran.ending,
        rescues,
    })
}

/// The trials of a path, one after the other.
fn try_path(alloc: Global, subject: &Subject, code: u64, path: &[u64]) -> Result<Trials, MemoryWant>
    requires can { CanTry subject.now }
    ensures each { IfOk result (λ trials. AllZip (IsTrial subject.now code) path.now trials) }
{
    let mut trials = Vec::new(alloc);
    for entry in path {
        let trial = try_point(alloc, subject, code, *entry)?;
        trials.push(trial)?;
    }
    Ok(Trials::of(trials))
}

/// The call path of a hart at the end of a run without points, whose history goes.
fn path_of(
    alloc: Global,
    subject: &Subject,
    symbols: &Symbols,
    ran: Ran,
    hart: u8,
) -> Result<Vec<u64>, MemoryWant>
    requires can { CanTry subject.now }
    requires runs { RunsTo subject.now [] ran.history.entries ran.ending }
    ensures path { IfOk result (λ path. path.items ≡ call_path_of subject.now.image.loads
        symbols.now (start_with subject.now []) ran.history.entries hart) }
{
    let limits = subject.limits();
    call_path(alloc, &subject.image, symbols, &limits, &ran.history, hart)
}

/// Runs a subject without points, and where that ends by a fault once more for each function on the
/// call path of the hart that met it, with this function as the only point. Each call of it that
/// meets a fault returns `returns`.
///
/// Memory is wanting also where it was for a byte that a run wrote.
pub fn try_points(
    alloc: Global,
    subject: &Subject,
    symbols: &Symbols,
    returns: i64,
) -> Result<Tries, MemoryWant>
    requires can { CanTry subject.now }
    ensures tries { IfOk result (AreTries subject.now symbols.now (word_of returns)) }
{
    let none = Points::of(Vec::new(alloc));
    let ran = run(alloc, subject, &none)?;
    match ran.ending {
        Ending::Fault { hart, fault } => {
            let path = path_of(alloc, subject, symbols, ran, hart)?;
            let code = returns.cast_unsigned();
            let trials = try_path(alloc, subject, code, &path)?;
            Ok(Tries::Faulted {
                hart,
                fault,
                trials,
            })
        }
        ending => Ok(Tries::Ended(ending)),
    }
}
