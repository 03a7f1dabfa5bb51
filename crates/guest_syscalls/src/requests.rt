ghost use Rattle.std.specs.Prelude.{◌≡◌};
ghost use Rattle.guest_words.specs.Calls.{request_of, request_numbered, futex_of};

use guest_words::abi::{A0, A1, A2, A3, A4, A7};
use guest_words::linux::{
    BRK, CLONE, CLOSE, EXIT, EXIT_GROUP, FUTEX, FUTEX_PRIVATE, FUTEX_WAIT, FUTEX_WAKE, GETTID,
    MMAP, MUNMAP, READ, SCHED_YIELD, WRITE,
};
use guest_words::{Hart, Request};

/// The request of a hart that stands at an ECALL: the call number is in a7, the arguments are in
/// a0 to a4, whole. Takes no memory.
#[tactic(auto, unfolding(guest_words::specs::Calls::request_of))]
pub fn ask(hart: &Hart) -> Request
    ensures value { result ≡ request_of hart.now }
{
    let regs = &hart.regs;
    requested(regs[A7], regs[A0], regs[A1], regs[A2], regs[A3], regs[A4])
}

fn requested(number: u64, a: u64, b: u64, c: u64, d: u64, e: u64) -> Request
    ensures value { result ≡ request_numbered number a b c d e }
{
    match number {
        CLOSE => Request::Close { fd: a },
        READ => Request::Read {
            fd: a,
            place: b,
            size: c,
        },
        WRITE => Request::Write {
            fd: a,
            place: b,
            size: c,
        },
        EXIT => Request::Exit { code: a },
        EXIT_GROUP => Request::ExitGroup { code: a },
        FUTEX => futex(a, b, c, d),
        SCHED_YIELD => Request::Yield,
        GETTID => Request::Tid,
        BRK => Request::Break { to: a },
        MUNMAP => Request::Unmap {
            place: a,
            length: b,
        },
        CLONE => Request::Clone {
            flags: a,
            stack: b,
            parent: c,
            tls: d,
            child: e,
        },
        MMAP => Request::Map {
            length: b,
            prot: c,
            flags: d,
        },
        _ => Request::Unknown,
    }
}

// That the futex is private to the process changes nothing here.
fn futex(place: u64, op: u64, value: u64, timeout: u64) -> Request
    ensures value { result ≡ futex_of place op value timeout }
{
    let private = op | FUTEX_PRIVATE;
    if private == FUTEX_WAIT + FUTEX_PRIVATE {
        Request::Wait {
            place,
            value,
            timeout,
        }
    } else if private == FUTEX_WAKE + FUTEX_PRIVATE {
        Request::Wake { place, value }
    } else {
        Request::Unknown
    }
}
