ghost use Rattle.std.specs.Prelude.{◌≡◌, ◌≤◌, [], length, pos, take, IfOk, MatchResult};
ghost use Rattle.edge_ports.specs.Records.{IsClose, IsRead, IsWrite};

use crate::failed::Failed;
use crate::octets::octets;
use guest_words::linux::EIO;
use guest_words::{Bytes, Record, Way};
use std::alloc::Global;

/// The record of a `take` into these places.
pub fn read_record(fd: u64, taken: Result<usize, Failed>, mut places: Vec<u8>) -> Record
    requires size { length places.items ≤ 65536 }
    requires within { IfOk taken (λ n. n ≤ length places.items) }
    ensures fits { IsRead fd (length places.items) result }
    ensures bytes { MatchResult taken (λ n. result.bytes ≡ take n places.items)
        (λ _. result.bytes ≡ []) }
    ensures answer { MatchResult taken (λ n. result.answer ≡ pos n) (λ _. result.answer ≡ EIO) }
{
    let asked = places.len() as u64;
    let answer = match taken {
        Ok(count) => {
            places.truncate(count);
            count as i64
        }
        Err(Failed) => {
            places.clear();
            EIO
        }
    };
    // What was asked for and didn't come is room that a history would keep for nothing.
    places.shrink_to_fit();
    Record {
        port: fd,
        way: Way::Read,
        asked,
        answer,
        bytes: octets(places),
    }
}

/// The record of a `put` of these bytes.
pub fn write_record(fd: u64, put: Result<(), Failed>, bytes: Bytes) -> Record
    requires size { length bytes ≤ 65536 }
    ensures fits { IsWrite fd bytes result }
    ensures bytes { MatchResult put (λ _. result.bytes ≡ bytes) (λ _. result.bytes ≡ []) }
    ensures answer { MatchResult put (λ _. result.answer ≡ pos (length bytes))
        (λ _. result.answer ≡ EIO) }
{
    let mut items = bytes.into_vec();
    let asked = items.len();
    let answer = match put {
        Ok(()) => asked as i64,
        Err(Failed) => {
            items.clear();
            items.shrink_to_fit();
            EIO
        }
    };
    Record {
        port: fd,
        way: Way::Write,
        asked: asked as u64,
        answer,
        bytes: octets(items),
    }
}

/// The record of a close.
pub fn close_record(alloc: Global, fd: u64) -> Record
    ensures fits { IsClose fd result }
{
    Record {
        port: fd,
        way: Way::Close,
        asked: 0,
        answer: 0,
        bytes: Bytes::of(Vec::new(alloc)),
    }
}
