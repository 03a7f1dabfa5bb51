ghost use Rattle.history_file.specs.Reading.{Gives, way_at, name_at, fault_at, record_at};

use crate::fields::{byte_at, double_at, text_at};
use crate::file_fault::FileKind;
use crate::refused::Refused;
use guest_words::{Fault, FaultName, Record, Way};
use std::alloc::Global;

/// The ways, by their numbers.
const WAYS: [Way; 3] = [Way::Read, Way::Write, Way::Close];

/// The names of faults, by their numbers.
const NAMES: [FaultName; 8] = [
    FaultName::FetchRights,
    FaultName::FetchMisaligned,
    FaultName::Illegal,
    FaultName::LoadRights,
    FaultName::StoreRights,
    FaultName::AtomicMisaligned,
    FaultName::Breakpoint,
    FaultName::BlockedInPoint,
];

/// The way at the front, and what follows it.
#[tactic(auto, unfolding(crate::specs::Reading::way_at))]
fn way_at(bytes: &[u8]) -> Result<(Way, &[u8]), Refused>
    ensures { Gives (λ x. (x.0, x.1.now)) result (way_at bytes.now) }
{
    let (number, rest) = byte_at(bytes)?;
    match WAYS.get(usize::from(number)) {
        Some(way) => Ok((*way, rest)),
        None => Err(Refused::At {
            fault: FileKind::Value,
            left: bytes.len(),
        }),
    }
}

/// The name of a fault at the front, and what follows it.
#[tactic(auto, unfolding(crate::specs::Reading::name_at))]
fn name_at(bytes: &[u8]) -> Result<(FaultName, &[u8]), Refused>
    ensures { Gives (λ x. (x.0, x.1.now)) result (name_at bytes.now) }
{
    let (number, rest) = byte_at(bytes)?;
    match NAMES.get(usize::from(number)) {
        Some(name) => Ok((*name, rest)),
        None => Err(Refused::At {
            fault: FileKind::Value,
            left: bytes.len(),
        }),
    }
}

/// The fault at the front, and what follows it.
#[tactic(auto, unfolding(crate::specs::Reading::fault_at))]
pub(crate) fn fault_at(bytes: &[u8]) -> Result<(Fault, &[u8]), Refused>
    ensures { Gives (λ x. (x.0, x.1.now)) result (fault_at bytes.now) }
{
    let (name, rest) = name_at(bytes)?;
    let (pc, rest) = double_at(rest)?;
    Ok((Fault { name, pc }, rest))
}

/// The record at the front, and what follows it.
#[tactic(auto, unfolding(crate::specs::Reading::record_at))]
pub(crate) fn record_at(alloc: Global, bytes: &[u8]) -> Result<(Record, &[u8]), Refused>
    ensures { Gives (λ x. (x.0, x.1.now)) result (record_at bytes.now) }
{
    let (port, rest) = double_at(bytes)?;
    let (way, rest) = way_at(rest)?;
    let (asked, rest) = double_at(rest)?;
    let (answer, rest) = double_at(rest)?;
    let (bytes, rest) = text_at(alloc, rest)?;
    let record = Record {
        port,
        way,
        asked,
        answer: answer.cast_signed(),
        bytes,
    };
    Ok((record, rest))
}
