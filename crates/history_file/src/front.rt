ghost use Rattle.std.specs.Prelude.{◌≡◌};
ghost use Rattle.history_file.specs.Reading.{Gives, behind_magic, harts_at, budget_at, head_at, history_at};

use crate::entries::entries_at;
use crate::fields::{byte_at, double_at};
use crate::file_fault::FileKind;
use crate::head::Head;
use crate::refused::Refused;
use guest_words::limits::{BUDGET, FRAMES, HARTS};
use run_history::Entry;
use std::alloc::Global;

/// How a history file begins.
pub(crate) const MAGIC: [u8; 8] = *b"rescueh1";

/// What follows the letters that every history file begins with.
#[tactic(auto, unfolding(crate::specs::Reading::behind_magic))]
fn behind_magic(bytes: &[u8]) -> Result<&[u8], Refused>
    ensures { Gives (λ rest. rest.now) result (behind_magic bytes.now) }
{
    if bytes.len() < MAGIC.len() {
        return Err(Refused::At {
            fault: FileKind::Short,
            left: bytes.len(),
        });
    }
    match bytes.strip_prefix(&MAGIC) {
        Some(rest) => Ok(rest),
        None => Err(Refused::At {
            fault: FileKind::Magic,
            left: bytes.len(),
        }),
    }
}

/// The number of harts at the front, and what follows it.
#[tactic(auto, unfolding(crate::specs::Reading::harts_at))]
fn harts_at(bytes: &[u8]) -> Result<(u8, &[u8]), Refused>
    ensures { Gives (λ x. (x.0, x.1.now)) result (harts_at bytes.now) }
{
    let (harts, rest) = byte_at(bytes)?;
    if 1 <= harts && harts <= HARTS {
        Ok((harts, rest))
    } else {
        Err(Refused::At {
            fault: FileKind::Value,
            left: bytes.len(),
        })
    }
}

/// The budget at the front, and what follows it.
#[tactic(auto, unfolding(crate::specs::Reading::budget_at))]
fn budget_at(bytes: &[u8]) -> Result<(u64, &[u8]), Refused>
    ensures { Gives (λ x. (x.0, x.1.now)) result (budget_at bytes.now) }
{
    let (budget, rest) = double_at(bytes)?;
    if 1 <= budget && budget <= BUDGET {
        Ok((budget, rest))
    } else {
        Err(Refused::At {
            fault: FileKind::Value,
            left: bytes.len(),
        })
    }
}

/// The head at the front, and what follows it.
#[tactic(auto, unfolding(crate::specs::Reading::head_at))]
fn head_at(bytes: &[u8]) -> Result<(Head, &[u8]), Refused>
    ensures { Gives (λ x. (x.0, x.1.now)) result (head_at bytes.now) }
{
    let rest = behind_magic(bytes)?;
    let (harts, rest) = harts_at(rest)?;
    let (ports, rest) = double_at(rest)?;
    let (budget, rest) = budget_at(rest)?;
    let head = Head {
        harts,
        ports,
        budget,
    };
    Ok((head, rest))
}

/// The head and the entries at the front, and what follows them.
#[tactic(auto, unfolding(crate::specs::Reading::history_at))]
pub(crate) fn history_at(
    alloc: Global,
    bytes: &[u8],
) -> Result<((Head, Vec<Entry>), &[u8]), Refused>
    ensures { Gives (λ x. ((x.0.0, x.0.1.items), x.1.now)) result (history_at bytes.now) }
{
    let (head, rest) = head_at(bytes)?;
    let (count, rest) = double_at(rest)?;
    let (entries, rest) = entries_at(alloc, FRAMES, count, rest)?;
    Ok(((head, entries), rest))
}
