use crate::{answer, ask};
use guest_words::{Facts, Hart, HartState, Reply, Request, Rights};

fn hart_that_calls(number: u64, a: u64, b: u64, c: u64) -> Hart {
    let mut regs = [0; 32];
    regs[10] = a;
    regs[11] = b;
    regs[12] = c;
    regs[17] = number;
    Hart {
        pc: 0x10000,
        regs,
        state: HartState::Ready,
        tid: 1,
        ..Hart::EMPTY
    }
}

const FACTS: Facts = Facts {
    other_live: false,
    usable: true,
    readable: true,
    writable: true,
    word: 0,
    free_slot: Some(1),
    next_tid: 2,
    tid: 1,
    frames: false,
    low: 0x21000,
    brk: 0x21000,
    mapped: 0,
    place: Some(0x3f_8000_0000),
};

#[test]
fn a_write_is_asked_and_answered(rt: HostRuntime) {
    let request = ask(&hart_that_calls(64, 1, 0x20000, 70_000));
    assert!(rt;
        request
            == Request::Write {
                fd: 1,
                place: 0x20000,
                size: 70_000
            }
    );
    assert!(rt; answer(&request, &FACTS) == Reply::Port { asked: 65_536 });
}

// Call 999 isn't served: the answer is -38.
#[test]
fn unknown_call(rt: HostRuntime) {
    let request = ask(&hart_that_calls(999, 0, 0, 0));
    assert!(rt; answer(&request, &FACTS) == Reply::Value(-38));
}

// Flags 0 lack VM and THREAD: the answer is -22.
#[test]
fn refused_clone(rt: HostRuntime) {
    let request = ask(&hart_that_calls(220, 0, 0, 0));
    assert!(rt; answer(&request, &FACTS) == Reply::Value(-22));
}

// The break goes to 0x21010, and stays where it is when it is asked to go below the heap.
#[test]
fn break_moves(rt: HostRuntime) {
    let request = ask(&hart_that_calls(214, 0x21010, 0, 0));
    assert!(rt; answer(&request, &FACTS) == Reply::Break { to: 0x21010 });
    let below = Request::Break { to: 0 };
    assert!(rt; answer(&below, &FACTS) == Reply::Break { to: 0x21000 });
}

// A map of 4,096 bytes comes to the free place; what lies outside of the area isn't unmapped.
#[test]
fn map_and_unmap(rt: HostRuntime) {
    let map = Request::Map {
        length: 4_096,
        prot: 3,
        flags: 0x22,
    };
    let rights = Rights {
        read: true,
        write: true,
        exec: false,
    };
    assert!(rt;
        answer(&map, &FACTS)
            == Reply::Map {
                place: 0x3f_8000_0000,
                count: 1,
                rights
            }
    );
    let unmap = ask(&hart_that_calls(215, 0x20000, 4_096, 0));
    assert!(rt; answer(&unmap, &FACTS) == Reply::Value(-22));
}
