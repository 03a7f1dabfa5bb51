ghost use Rattle.history_file.specs.Reading.{Gives, ran_at, entered_at, called_at, exit_at, fatal_at, ending_of, ended_at};

use crate::fields::{byte_at, double_at, word_at};
use crate::file_fault::FileKind;
use crate::refused::Refused;
use crate::values::{fault_at, record_at};
use guest_words::{Ending, PointRef};
use run_history::Entry;
use std::alloc::Global;

/// The acts of a hart at the front, and what follows them.
#[tactic(auto, unfolding(crate::specs::Reading::ran_at))]
pub(crate) fn ran_at(bytes: &[u8]) -> Result<(Entry, &[u8]), Refused>
    ensures { Gives (λ x. (x.0, x.1.now)) result (ran_at bytes.now) }
{
    let (hart, rest) = byte_at(bytes)?;
    let (count, rest) = word_at(rest)?;
    Ok((Entry::Ran { hart, count }, rest))
}

/// The entering of a point at the front, and what follows it.
#[tactic(auto, unfolding(crate::specs::Reading::entered_at))]
pub(crate) fn entered_at(bytes: &[u8]) -> Result<(Entry, &[u8]), Refused>
    ensures { Gives (λ x. (x.0, x.1.now)) result (entered_at bytes.now) }
{
    let (hart, rest) = byte_at(bytes)?;
    let (entry, rest) = double_at(rest)?;
    let point = PointRef { entry };
    Ok((Entry::Entered { hart, point }, rest))
}

/// The call on a device at the front, and what follows it.
#[tactic(auto, unfolding(crate::specs::Reading::called_at))]
pub(crate) fn called_at(alloc: Global, bytes: &[u8]) -> Result<(Entry, &[u8]), Refused>
    ensures { Gives (λ x. (x.0, x.1.now)) result (called_at bytes.now) }
{
    let (hart, rest) = byte_at(bytes)?;
    let (call, rest) = record_at(alloc, rest)?;
    Ok((Entry::Called { hart, call }, rest))
}

/// An exit at the front, and what follows it.
#[tactic(auto, unfolding(crate::specs::Reading::exit_at))]
fn exit_at(bytes: &[u8]) -> Result<(Ending, &[u8]), Refused>
    ensures { Gives (λ x. (x.0, x.1.now)) result (exit_at bytes.now) }
{
    let (hart, rest) = byte_at(bytes)?;
    let (code, rest) = byte_at(rest)?;
    Ok((Ending::Exit { hart, code }, rest))
}

/// A fault that ends the run at the front, and what follows it.
#[tactic(auto, unfolding(crate::specs::Reading::fatal_at))]
fn fatal_at(bytes: &[u8]) -> Result<(Ending, &[u8]), Refused>
    ensures { Gives (λ x. (x.0, x.1.now)) result (fatal_at bytes.now) }
{
    let (hart, rest) = byte_at(bytes)?;
    let (fault, rest) = fault_at(rest)?;
    Ok((Ending::Fault { hart, fault }, rest))
}

/// An ending of a kind, whose number stands before `rest`.
#[tactic(auto, unfolding(crate::specs::Reading::ending_of))]
fn ending_of<'a>(kind: u8, bytes: &[u8], rest: &'a [u8]) -> Result<(Ending, &'a [u8]), Refused>
    ensures { Gives (λ x. (x.0, x.1.now)) result (ending_of kind bytes.now rest.now) }
{
    match kind {
        0 => exit_at(rest),
        1 => fatal_at(rest),
        2 => Ok((Ending::Stuck, rest)),
        3 => Ok((Ending::Budget, rest)),
        _ => Err(Refused::At {
            fault: FileKind::Value,
            left: bytes.len(),
        }),
    }
}

/// The ending of the run at the front, and what follows it.
#[tactic(auto, unfolding(crate::specs::Reading::ended_at))]
pub(crate) fn ended_at(bytes: &[u8]) -> Result<(Entry, &[u8]), Refused>
    ensures { Gives (λ x. (x.0, x.1.now)) result (ended_at bytes.now) }
{
    let (kind, rest) = byte_at(bytes)?;
    let (ending, rest) = ending_of(kind, bytes, rest)?;
    Ok((Entry::Ended { ending }, rest))
}
