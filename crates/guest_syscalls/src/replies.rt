ghost use Rattle.std.specs.Prelude.{◌≡◌};
ghost use Rattle.guest_words.specs.Calls.{reply_of, reply_of_close, reply_of_transfer, reply_of_exit, reply_of_wait, reply_of_wake, reply_of_clone, reply_of_break, reply_of_map, mapped_at, mapped_rights, reply_of_unmap, is_in_area, cut};
ghost use Rattle.guest_words.specs.Space.{pages_in};

use crate::flags::{is_map_known, makes_hart, mapped_rights};
use guest_words::limits::{HEAP_BYTES, MAP_END, MAP_FROM, MAP_PAGES, PAGE, TRANSFER};
use guest_words::linux::{EAGAIN, EBADF, EFAULT, EINVAL, ENOMEM, ENOSYS};
use guest_words::{Facts, Reply, Request};

/// What a call does, by the facts of the state that it is made in. Takes no memory.
#[tactic(auto, unfolding(guest_words::specs::Calls::reply_of))]
pub fn answer(request: &Request, facts: &Facts) -> Reply
    ensures value { result ≡ reply_of request.now facts.now }
{
    match *request {
        Request::Read { size, .. } => transfer(size, facts.usable, facts.writable),
        Request::Write { size, .. } => transfer(size, facts.usable, facts.readable),
        Request::Close { .. } => close(facts),
        Request::Exit { code } => exit(code, facts),
        Request::ExitGroup { code } => Reply::End {
            code: (code % 256) as u8,
        },
        Request::Wait {
            place,
            value,
            timeout,
        } => wait(place, value, timeout, facts),
        Request::Wake { place, value } => wake(place, value),
        Request::Clone { flags, .. } => clone(flags, facts),
        Request::Break { to } => move_break(to, facts),
        Request::Map {
            length,
            prot,
            flags,
        } => map(length, prot, flags, facts),
        Request::Unmap { place, length } => unmap(place, length),
        Request::Yield => Reply::Value(0),
        Request::Tid => Reply::Value(facts.tid as i64),
        Request::Unknown => Reply::Value(ENOSYS),
    }
}

fn close(facts: &Facts) -> Reply
    ensures value { result ≡ reply_of_close facts.now }
{
    if facts.usable {
        Reply::Port { asked: 0 }
    } else {
        Reply::Value(EBADF)
    }
}

// One read or write moves 65,536 bytes at most.
fn cut(size: u64) -> u32
    ensures value { result ≡ cut size }
{
    size.min(TRANSFER) as u32
}

fn transfer(size: u64, usable: bool, reached: bool) -> Reply
    ensures value { result ≡ reply_of_transfer size usable reached }
{
    if !usable {
        Reply::Value(EBADF)
    } else if size == 0 {
        Reply::Value(0)
    } else if !reached {
        Reply::Value(EFAULT)
    } else {
        Reply::Port { asked: cut(size) }
    }
}

fn exit(code: u64, facts: &Facts) -> Reply
    ensures value { result ≡ reply_of_exit code facts.now }
{
    if facts.other_live {
        Reply::Gone
    } else {
        Reply::End {
            code: (code % 256) as u8,
        }
    }
}

fn wait(place: u64, value: u64, timeout: u64, facts: &Facts) -> Reply
    ensures value { result ≡ reply_of_wait place value timeout facts.now }
{
    if place % 4 != 0 || timeout != 0 {
        Reply::Value(EINVAL)
    } else if !facts.readable {
        Reply::Value(EFAULT)
    } else if facts.word as u64 != value % 4_294_967_296 {
        Reply::Value(EAGAIN)
    } else if facts.frames {
        Reply::Blocked
    } else {
        Reply::Queue
    }
}

fn wake(place: u64, value: u64) -> Reply
    ensures value { result ≡ reply_of_wake place value }
{
    if place % 4 != 0 {
        Reply::Value(EINVAL)
    } else {
        Reply::Rouse {
            most: (value % 4_294_967_296) as u32,
        }
    }
}

fn clone(flags: u64, facts: &Facts) -> Reply
    ensures value { result ≡ reply_of_clone flags facts.now }
{
    if !makes_hart(flags) {
        return Reply::Value(EINVAL);
    }
    match facts.free_slot {
        None => Reply::Value(EAGAIN),
        Some(slot) => Reply::Child { slot },
    }
}

fn move_break(to: u64, facts: &Facts) -> Reply
    ensures value { result ≡ reply_of_break to facts.now }
{
    if to < facts.low || to - facts.low > HEAP_BYTES {
        Reply::Break { to: facts.brk }
    } else {
        Reply::Break { to }
    }
}

// How many pages so many bytes take.
fn pages_in(size: u64) -> u64
    ensures value { result ≡ pages_in size }
{
    if size % PAGE == 0 {
        size / PAGE
    } else {
        size / PAGE + 1
    }
}

fn map(length: u64, prot: u64, flags: u64, facts: &Facts) -> Reply
    ensures value { result ≡ reply_of_map length prot flags facts.now }
{
    if length == 0 || !is_map_known(prot, flags) {
        return Reply::Value(EINVAL);
    }
    let count = pages_in(length);
    if facts.mapped > MAP_PAGES || count > MAP_PAGES - facts.mapped {
        return Reply::Value(ENOMEM);
    }
    mapped_at(count, prot, facts.place)
}

fn mapped_at(count: u64, prot: u64, place: Option<u64>) -> Reply
    ensures value { result ≡ mapped_at count prot place }
{
    match place {
        None => Reply::Value(ENOMEM),
        Some(place) => Reply::Map {
            place,
            count,
            rights: mapped_rights(prot),
        },
    }
}

fn unmap(place: u64, length: u64) -> Reply
    ensures value { result ≡ reply_of_unmap place length }
{
    let count = pages_in(length);
    if place % PAGE != 0 || length == 0 || !is_in_area(place, count) {
        Reply::Value(EINVAL)
    } else {
        Reply::Unmap { place, count }
    }
}

/// Whether so many pages from a place on lie in the area of mapped pages.
pub fn is_in_area(place: u64, count: u64) -> bool
    ensures value { result ≡ is_in_area place count }
{
    place >= MAP_FROM && place <= MAP_END && count <= (MAP_END - place) / PAGE
}
