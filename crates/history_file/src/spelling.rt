ghost use Rattle.std.specs.Prelude.{◌≡◌, ◌<◌, ◌^◌, ◌++◌, ℕ, length, OnOk, IfOk};
ghost use Rattle.history_file.specs.HistoryBytes.{entry_bytes, entries_bytes, rescued_bytes, head_bytes, history_bytes};
ghost use Rattle.history_file.specs.Spelled.{IsHead, IsShallow, AreShallow, InRange, AreInRange, IsHistoryFile};

use crate::front::MAGIC;
use crate::head::Head;
use crate::put::{put_double, put_ending, put_fault, put_record, put_word};
use crate::size::{size_of_all, sum};
use guest_words::limits::FRAMES;
use guest_words::{Bytes, Fault, MemoryWant, PointRef};
use run_history::{Entry, History};
use std::alloc::Global;

/// How many bytes stand before the entries.
const FRONT_SIZE: usize = 33;

/// Puts a head last.
#[tactic(auto, unfolding(crate::specs::HistoryBytes::head_bytes))]
fn put_head(out: &mut Vec<u8>, head: &Head) -> Result<(), MemoryWant>
    ensures ok { OnOk result (out.new.items ≡ out.old.items ++ head_bytes head.now) }
    ensures ports { OnOk result (head.now.ports < 2 ^ 64) }
{
    out.extend_from_slice(&MAGIC)?;
    out.push(head.harts)?;
    put_double(out, head.ports)?;
    put_double(out, head.budget)
}

/// Puts entries last.
#[cycle(puts)]
fn put_entries(out: &mut Vec<u8>, entries: &[Entry]) -> Result<(), MemoryWant>
    requires { (room : ℕ) × AreShallow room entries.now }
    ensures ok { OnOk result (out.new.items ≡ out.old.items ++ entries_bytes entries.now) }
    ensures range { OnOk result (AreInRange entries.now) }
{
    for entry in entries {
        put_entry(out, entry)?;
    }
    Ok(())
}

/// Puts an entry last.
#[cycle(puts)]
#[tactic(auto, unfolding(crate::specs::HistoryBytes::entry_bytes, crate::specs::Spelled::InRange))]
fn put_entry(out: &mut Vec<u8>, entry: &Entry) -> Result<(), MemoryWant>
    requires { (room : ℕ) × IsShallow room entry.now }
    ensures ok { OnOk result (out.new.items ≡ out.old.items ++ entry_bytes entry.now) }
    ensures range { OnOk result (InRange entry.now) }
{
    match entry {
        Entry::Ran { hart, count } => {
            out.extend_from_slice(&[1, *hart])?;
            put_word(out, *count)
        }
        Entry::Entered { hart, point } => {
            out.extend_from_slice(&[2, *hart])?;
            put_double(out, point.entry)
        }
        Entry::Called { hart, call } => {
            out.extend_from_slice(&[3, *hart])?;
            put_record(out, call)
        }
        Entry::Rescued {
            hart,
            point,
            fault,
            inside,
        } => put_rescued(out, *hart, *point, *fault, inside.as_slice()),
        Entry::Ended { ending } => {
            out.push(5)?;
            put_ending(out, *ending)
        }
    }
}

/// Puts a rescued call last.
#[cycle(puts)]
#[tactic(auto, unfolding(crate::specs::HistoryBytes::rescue_bytes))]
fn put_rescued(
    out: &mut Vec<u8>,
    hart: u8,
    point: PointRef,
    fault: Fault,
    inside: &[Entry],
) -> Result<(), MemoryWant>
    requires few { length inside.now < 2 ^ 32 }
    requires shallow { (room : ℕ) × AreShallow room inside.now }
    ensures ok { OnOk result
        (out.new.items ≡ out.old.items ++ rescued_bytes hart point fault inside.now) }
    ensures entry { point.entry < 2 ^ 64 }
    ensures pc { fault.pc < 2 ^ 64 }
    ensures range { OnOk result (AreInRange inside.now) }
{
    out.extend_from_slice(&[4, hart])?;
    put_double(out, point.entry)?;
    put_fault(out, fault)?;
    put_word(out, inside.len() as u32)?;
    put_entries(out, inside)
}

/// The history file of a head and a history. The memory for it is taken at once.
#[tactic(auto, unfolding(crate::specs::HistoryBytes::history_bytes))]
pub fn spell(alloc: Global, head: &Head, history: &History) -> Result<Bytes, MemoryWant>
    requires head { IsHead head.now }
    requires shallow { AreShallow FRAMES history.now.entries }
    ensures ok { IfOk result (λ bytes. IsHistoryFile bytes head.now history.now.entries) }
{
    let entries = history.items();
    let size = sum(FRONT_SIZE, size_of_all(entries)?)?;
    let mut out = Vec::with_capacity(alloc, size)?;
    put_head(&mut out, head)?;
    put_double(&mut out, entries.len() as u64)?;
    put_entries(&mut out, entries)?;
    Ok(Bytes::of(out))
}
