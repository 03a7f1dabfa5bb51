use crate::case::{Case, Outcome, run};
use crate::expected::{Expected, are};
use crate::image::image;
use crate::replay::{ReplayStart, replays};
use rescue_run::Outcome as Came;
use run_history::{Entry, History};
use std::alloc::{AllocError, Global};
use std::process::Abort;
use std::test::Fail;

/// What a case has to give: its history, what the output was given, the status and the report.
#[derive(Clone, Copy)]
pub struct Given<'a> {
    pub history: &'a [Expected<'a>],
    pub out: &'a [u8],
    pub status: u8,
    pub report: &'a str,
}

// Whether the entries are these, and a run of the program from its start.
fn goes(
    alloc: Global,
    case: &Case,
    history: &Option<History>,
    expected: &[Expected],
) -> Result<bool, AllocError> {
    match history {
        None => Ok(false),
        Some(history) => {
            let entries = history.items();
            Ok(are(entries, expected) && replay(alloc, case, entries)?)
        }
    }
}

/// Asserts each part of what a case gives.
pub fn assert_gives(
    rt: &impl Abort,
    alloc: Global,
    case: &Case,
    given: &Given,
) -> Result<Outcome, Fail> {
    let outcome = run(alloc, case)?;
    assert_eq!(rt; outcome.answer.status, given.status);
    assert!(rt; goes(alloc, case, &outcome.answer.history, given.history)?);
    assert!(rt; outcome.answer.devices.out.given() == given.out);
    assert!(rt; outcome.report.given() == given.report.as_bytes());
    Ok(outcome)
}

fn is_given(
    alloc: Global,
    case: &Case,
    outcome: &Outcome,
    given: &Given,
) -> Result<bool, AllocError> {
    let answer = &outcome.answer;
    Ok(
        answer.status == given.status
            && answer.devices.out.given() == given.out
            && outcome.report.given() == given.report.as_bytes()
            && goes(alloc, case, &answer.history, given.history)?,
    )
}

/// Whether a case gives this, or wants memory. A history that want of memory left is a run.
pub fn gives_or_wants(alloc: Global, case: &Case, given: &Given) -> Result<bool, AllocError> {
    let outcome = run(alloc, case)?;
    match outcome.answer.outcome {
        Came::Memory => is_run(alloc, case, &outcome.answer.history),
        _ => is_given(alloc, case, &outcome, given),
    }
}

fn is_run(alloc: Global, case: &Case, history: &Option<History>) -> Result<bool, AllocError> {
    match history {
        None => Ok(true),
        Some(history) => replay(alloc, case, history.items()),
    }
}

fn replay(alloc: Global, case: &Case, entries: &[Entry]) -> Result<bool, AllocError> {
    let file = image(alloc, case.words, case.data)?;
    let start = ReplayStart {
        points: case.points.unwrap_or(""),
        harts: case.harts.unwrap_or(8),
        ports: case.ports(),
        budget: case.budget.unwrap_or(5_000_000),
    };
    replays(alloc, &file, start, entries)
}
