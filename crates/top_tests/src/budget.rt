use crate::case::{Case, run};
use crate::image::image;
use crate::replay::{ReplayStart, replays};
use guest_words::Ending;
use run_history::Entry;
use std::test::Fail;

/// A jump to itself.
const LOOP: [u32; 1] = [0x0000006f];

const START: ReplayStart = ReplayStart {
    points: "",
    harts: 8,
    ports: 0,
    budget: 5_000_000,
};

/// How many entries stand for so many acts each, before the end by the budget.
fn turns(entries: &[Entry], acts: u32) -> Option<usize> {
    let (last, before) = entries.split_last()?;
    let ran = |entry: &Entry| matches!(entry, Entry::Ran { hart: 0, count } if *count == acts);
    match last {
        Entry::Ended {
            ending: Ending::Budget,
        } if before.iter().all(ran) => Some(before.len()),
        _ => None,
    }
}

#[test]
fn budget_of_a_loop(rt: HostRuntime) -> Result<(), Fail> {
    let alloc = rt.alloc();
    let outcome = run(alloc, &Case::of(&LOOP))?;
    assert_eq!(rt; outcome.answer.status, 72);
    match &outcome.answer.history {
        Some(history) => {
            assert_eq!(rt; turns(history.items(), 64), Some(78_125));
            let file = image(alloc, &LOOP, None)?;
            assert!(rt; replays(alloc, &file, START, history.items())?);
        }
        None => assert!(rt; false),
    }
    let report = "rescue-report 1\nsteps 5000000\nrecords 0\nrescues 0\nend budget\n";
    assert!(rt; outcome.report.given() == report.as_bytes());
    Ok(())
}
