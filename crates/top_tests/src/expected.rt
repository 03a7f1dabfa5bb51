use guest_words::{Ending, FaultName, Record, Way};
use run_history::Entry;

/// An entry as a case names it, of the first hart where it names none.
#[derive(Clone, Copy)]
pub enum Expected<'a> {
    Ran(u32),
    /// Acts of this hart.
    RanBy(u8, u32),
    /// A call on a device: descriptor, way, bytes asked for, answer.
    Called(u64, Way, u64, i64),
    Entered(u64),
    /// A rescued call: entry, fault, its pc, and what lies inside.
    Rescued(u64, FaultName, u64, &'a [Inside]),
    Exit(u8),
    Fault(FaultName, u64),
    Stuck,
    Budget,
}

/// An entry of the first hart inside a rescued call.
#[derive(Clone, Copy)]
pub enum Inside {
    Ran(u32),
    /// A call on a device: descriptor, way, bytes asked for, answer.
    Called(u64, Way, u64, i64),
    Entered(u64),
}

/// Whether the entries are these.
pub fn are(entries: &[Entry], expected: &[Expected]) -> bool {
    entries.len() == expected.len()
        && entries
            .iter()
            .zip(expected.iter())
            .all(|(entry, expected)| is(entry, *expected))
}

fn is(entry: &Entry, expected: Expected) -> bool {
    match (entry, expected) {
        (Entry::Ran { hart: 0, count }, Expected::Ran(other)) => *count == other,
        (Entry::Ran { hart, count }, Expected::RanBy(by, other)) => *hart == by && *count == other,
        (Entry::Entered { hart: 0, point }, Expected::Entered(at)) => point.entry == at,
        (Entry::Called { hart: 0, call }, Expected::Called(port, way, asked, answer)) => {
            is_call(call, port, way, asked, answer)
        }
        (
            Entry::Rescued {
                hart: 0,
                point,
                fault,
                inside,
            },
            Expected::Rescued(at, name, pc, others),
        ) => {
            let inside = lies_inside(inside.as_slice(), others);
            point.entry == at && fault.name == name && fault.pc == pc && inside
        }
        (Entry::Ended { ending }, expected) => is_ending(*ending, expected),
        _ => false,
    }
}

fn is_call(call: &Record, port: u64, way: Way, asked: u64, answer: i64) -> bool {
    call.port == port && call.way == way && call.asked == asked && call.answer == answer
}

fn lies_inside(entries: &[Entry], expected: &[Inside]) -> bool {
    entries.len() == expected.len()
        && entries
            .iter()
            .zip(expected.iter())
            .all(|(entry, expected)| is_inside(entry, *expected))
}

fn is_inside(entry: &Entry, expected: Inside) -> bool {
    match (entry, expected) {
        (Entry::Ran { hart: 0, count }, Inside::Ran(other)) => *count == other,
        (Entry::Entered { hart: 0, point }, Inside::Entered(at)) => point.entry == at,
        (Entry::Called { hart: 0, call }, Inside::Called(port, way, asked, answer)) => {
            is_call(call, port, way, asked, answer)
        }
        _ => false,
    }
}

fn is_ending(ending: Ending, expected: Expected) -> bool {
    match (ending, expected) {
        (Ending::Exit { hart: 0, code }, Expected::Exit(other)) => code == other,
        (Ending::Fault { hart: 0, fault }, Expected::Fault(name, pc)) => {
            fault.name == name && fault.pc == pc
        }
        (Ending::Stuck, Expected::Stuck) => true,
        (Ending::Budget, Expected::Budget) => true,
        _ => false,
    }
}
