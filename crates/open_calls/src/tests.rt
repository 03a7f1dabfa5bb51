use crate::Calls;
use checkpoints::Checkpoint;
use futex_table::Queue;
use guest_atomics::Harts;
use guest_words::{MemoryWant, PointRef, Width};
use run_history::Entry;
use std::alloc::Global;
use std::test::Fail;
use undo_log::{Log, Note};

const OUTER: PointRef = PointRef { entry: 0x10000 };

const INNER: PointRef = PointRef { entry: 0x10100 };

// A checkpoint of a machine with no hart.
fn nobody(alloc: Global) -> Result<Checkpoint, MemoryWant> {
    Checkpoint::of(alloc, &Harts::of(Vec::new(alloc)), &Queue::new(), 0, 2)
}

// That a byte had the values from 0 to 4.
fn five_notes(alloc: Global) -> Result<Log, MemoryWant> {
    let mut log = Log::new(alloc);
    for old in 0..5 {
        log.note_bytes(0x20000, Width::One, old)?;
    }
    Ok(log)
}

// Of two calls the inner one has the notes from its mark on.
#[test]
fn notes_of_each_call(rt: HostRuntime) -> Result<(), Fail> {
    let log = five_notes(rt.alloc())?;
    let mut calls = Calls::none(rt.alloc(), 0)?;
    calls.make_room()?;
    let list = calls.next_list(rt.alloc())?;
    calls.open(OUTER, nobody(rt.alloc())?, 0, list);
    calls.make_room()?;
    let list = calls.next_list(rt.alloc())?;
    calls.open(INNER, nobody(rt.alloc())?, 2, list);
    assert!(rt;
        matches!(
            calls.notes(0, &log),
            [Note::Bytes { old: 0, .. }, Note::Bytes { old: 1, .. }]
        )
    );
    assert!(rt; calls.notes(1, &log).len() == 3);
    Ok(())
}

// Acts in both of two calls, which close.
#[test]
fn calls_within_calls_close(rt: HostRuntime) -> Result<(), Fail> {
    let mut calls = Calls::none(rt.alloc(), 0)?;
    calls.make_room()?;
    let list = calls.next_list(rt.alloc())?;
    calls.open(OUTER, nobody(rt.alloc())?, 0, list);
    calls.make_room()?;
    calls.put_run(3);
    calls.make_room()?;
    let list = calls.next_list(rt.alloc())?;
    calls.open(INNER, nobody(rt.alloc())?, 2, list);
    calls.make_room()?;
    calls.put_run(2);
    calls.make_room()?;
    calls.put_run(4);
    assert!(rt; calls.depth() == 2 && calls.length() == 0);
    let history = calls.flatten();
    assert!(rt;
        matches!(
            history.items(),
            [
                Entry::Entered { point: OUTER, .. },
                Entry::Ran { count: 3, .. },
                Entry::Entered { point: INNER, .. },
                Entry::Ran { count: 6, .. },
            ]
        )
    );
    Ok(())
}
