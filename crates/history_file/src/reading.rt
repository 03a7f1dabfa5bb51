ghost use Rattle.std.specs.Prelude.{◌≡◌, ◌≤◌, ℕ, ◌++◌, List, length, IfOk, IsErrOf, Ok};
ghost use Rattle.history_file.specs.declared.file_fault.FileKind.{FileKind};
ghost use Rattle.run_history.specs.declared.entry.Entry.{Entry};
ghost use Rattle.history_file.specs.declared.head.Head.{Head};
ghost use Rattle.history_file.specs.HistoryBytes.{history_bytes};
ghost use Rattle.history_file.specs.Spelled.{BeginsWithHistory, IsHistoryFile, IsSpelled};
ghost use Rattle.history_file.specs.Reading.{Gives, Answers, head_and_entries, of_front, front_and_rest, offset_of, whole_at, read_of, read_front_of, history_at};

use crate::file_fault::{FileFault, FileKind};
use crate::front::history_at;
use crate::head::Head;
use crate::refused::Refused;
use run_history::{Entry, History};
use std::alloc::Global;

/// The fault of a file of this size.
fn fault_of(refused: Refused, size: usize) -> FileFault
    ensures { result ≡ offset_of size refused }
{
    match refused {
        Refused::Memory => FileFault::Memory,
        Refused::At { fault, left } => FileFault::At {
            fault,
            offset: size.saturating_sub(left) as u64,
        },
    }
}

/// The head and the entries that all of the bytes are.
#[tactic(auto, unfolding(crate::specs::Reading::whole_at))]
fn whole_at(alloc: Global, bytes: &[u8]) -> Result<(Head, Vec<Entry>), Refused>
    ensures { Gives (λ x. (x.0, x.1.items)) result (whole_at bytes.now) }
{
    let ((head, entries), rest) = history_at(alloc, bytes)?;
    if rest.is_empty() {
        Ok((head, entries))
    } else {
        Err(Refused::At {
            fault: FileKind::Rest,
            left: rest.len(),
        })
    }
}

#[tactic(auto, unfolding(crate::specs::Reading::read_of))]
fn read_whole(alloc: Global, bytes: &[u8]) -> Result<(Head, History), FileFault>
    ensures { Answers head_and_entries result (read_of bytes.now) }
{
    match whole_at(alloc, bytes) {
        Ok((head, entries)) => Ok((head, History::of(entries))),
        Err(refused) => Err(fault_of(refused, bytes.len())),
    }
}

#[tactic(auto, unfolding(crate::specs::Reading::read_front_of))]
fn read_some(alloc: Global, bytes: &[u8]) -> Result<(Head, History, &[u8]), FileFault>
    ensures { Answers (λ x. ((x.0, x.1.entries), x.2.now)) result (read_front_of bytes.now) }
{
    match history_at(alloc, bytes) {
        Ok(((head, entries), rest)) => Ok((head, History::of(entries), rest)),
        Err(refused) => Err(fault_of(refused, bytes.len())),
    }
}

/// The head and the entries that the bytes are, or the first rule that they break.
pub fn read(alloc: Global, bytes: &[u8]) -> Result<(Head, History), FileFault>
    ensures found { IfOk result (λ x. IsHistoryFile bytes.now x.0 x.1.entries) }

    // The history file of a head and entries gives these.
    ensures only { (head : Head) (entries : List Entry) → IsHistoryFile bytes.now head entries
        → Answers head_and_entries result (Ok (head, entries)) }

    // A fault is the first one, by its place.
    ensures first { Answers head_and_entries result (read_of bytes.now) }
    ensures inside { (fault : FileKind) (offset : ℕ)
        → IsErrOf result (FileFault.At fault offset) → offset ≤ length bytes.now }
{
    read_whole(alloc, bytes)
}

/// The head and the entries that stand at the front of the bytes, and how many bytes they take, or
/// the first rule that the bytes break.
pub fn read_front(alloc: Global, bytes: &[u8]) -> Result<(Head, History, u64), FileFault>
    ensures found { IfOk result (λ x. BeginsWithHistory bytes.now x.0 x.1.entries x.2) }

    // Bytes that begin with the history file of a head and entries give these.
    ensures only { (head : Head) (entries : List Entry) (rest : List ℕ)
        → IsSpelled head entries → bytes.now ≡ history_bytes head entries ++ rest
        → Answers of_front result (Ok (head, entries)) }

    // A fault is the first one, by its place. That bytes are left is none.
    ensures first { Answers (front_and_rest bytes.now) result (read_front_of bytes.now) }
    ensures inside { (fault : FileKind) (offset : ℕ)
        → IsErrOf result (FileFault.At fault offset) → offset ≤ length bytes.now }
    ensures never { (offset : ℕ) → IsErrOf result (FileFault.At FileKind.Rest offset) → ⊥ }
{
    let (head, history, rest) = read_some(alloc, bytes)?;
    let size = bytes.len() - rest.len();
    Ok((head, history, size as u64))
}

/// No history file begins another, so each is that of one head and one list of entries.
pub fn one_history()
    ensures same { (h k : Head) (es fs : List Entry) (x y : List ℕ)
        → IsSpelled h es → IsSpelled k fs
        → history_bytes h es ++ x ≡ history_bytes k fs ++ y
        → (h ≡ k) × (es ≡ fs) × (x ≡ y) }
{}
