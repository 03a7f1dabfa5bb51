use crate::{FileFault, FileKind, Head, read, read_front, spell};
use guest_words::{Ending, Fault, FaultName, PointRef, Record, Way};
use run_history::{Entry, History};
use std::process::Abort;
use std::test::Fail;

// Eight harts, no ports, a budget of 5,000,000; two acts of hart 0, and its exit with 7.
const SMALLEST: [u8; 43] = *b"rescueh1\x08\0\0\0\0\0\0\0\0\x40\x4b\x4c\0\0\0\0\0\
    \x02\0\0\0\0\0\0\0\x01\0\x02\0\0\0\x05\0\0\x07";

// One hart, one port, a budget of 100. A read from descriptor 3 of 2 bytes, hi. A rescued call of
// the point 0x10018, that met illegal at 0x10020, and inside a close of descriptor 4 that answered
// -9. A fault of hart 1 ends the run: blocked-in-point at 0x10024.
const RESCUED: [u8; 132] = *b"rescueh1\x01\x01\0\0\0\0\0\0\0\x64\0\0\0\0\0\0\0\
    \x03\0\0\0\0\0\0\0\
    \x03\0\x03\0\0\0\0\0\0\0\0\x02\0\0\0\0\0\0\0\x02\0\0\0\0\0\0\0\x02\0\0\0hi\
    \x04\0\x18\0\x01\0\0\0\0\0\x02\x20\0\x01\0\0\0\0\0\x01\0\0\0\
    \x03\0\x04\0\0\0\0\0\0\0\x02\0\0\0\0\0\0\0\0\xf7\xff\xff\xff\xff\xff\xff\xff\0\0\0\0\
    \x05\x01\x01\x07\x24\0\x01\0\0\0\0\0";

#[test]
#[tactic(auto, unfolding(crate::specs::Spelled::IsShallow))]
fn smallest_file(rt: HostRuntime) -> Result<(), Fail> {
    let alloc = rt.alloc();
    let head = Head {
        harts: 8,
        ports: 0,
        budget: 5_000_000,
    };
    let ending = Ending::Exit { hart: 0, code: 7 };
    let ran = Entry::Ran { hart: 0, count: 2 };
    let history = History::of(vec![in alloc; ran, Entry::Ended { ending }]?);
    let bytes = spell(alloc, &head, &history)?;
    assert!(rt; bytes.items() == SMALLEST.as_slice());
    Ok(())
}

fn is_the_read(entry: &Entry) -> bool {
    matches!(
        entry,
        Entry::Called {
            hart: 0,
            call: Record {
                port: 3,
                way: Way::Read,
                asked: 2,
                answer: 2,
                ..
            },
        }
    )
}

fn is_the_close(entry: &Entry) -> bool {
    matches!(
        entry,
        Entry::Called {
            hart: 0,
            call: Record {
                port: 4,
                way: Way::Close,
                asked: 0,
                answer: -9,
                ..
            },
        }
    )
}

fn is_the_rescue(entry: &Entry) -> bool {
    match entry {
        Entry::Rescued {
            hart: 0,
            point: PointRef { entry: 0x10018 },
            fault,
            inside,
        } => {
            let illegal = Fault {
                name: FaultName::Illegal,
                pc: 0x10020,
            };
            *fault == illegal && inside.as_slice().iter().all(is_the_close)
        }
        _ => false,
    }
}

fn is_the_end(entry: &Entry) -> bool {
    let fault = Fault {
        name: FaultName::BlockedInPoint,
        pc: 0x10024,
    };
    match entry {
        Entry::Ended { ending } => *ending == Ending::Fault { hart: 1, fault },
        _ => false,
    }
}

#[test]
fn rescued_file(rt: HostRuntime) -> Result<(), Fail> {
    let alloc = rt.alloc();
    let Ok((head, history)) = read(alloc, &RESCUED) else {
        panic!(rt; "the bytes are a history file");
    };
    assert_eq!(rt;
        head,
        Head {
            harts: 1,
            ports: 1,
            budget: 100
        }
    );
    let [first, second, third] = history.items() else {
        panic!(rt; "there are three entries");
    };
    assert!(rt; is_the_read(first));
    assert!(rt; is_the_rescue(second));
    assert!(rt; is_the_end(third));
    let bytes = spell(alloc, &head, &history)?;
    assert!(rt; bytes.items() == RESCUED.as_slice());
    Ok(())
}

// The smallest file with a byte changed: its place, the byte, and what is broken where.
const BROKEN: [(usize, u8, FileKind, u64); 9] = [
    (7, b'2', FileKind::Magic, 0),
    (8, 0, FileKind::Value, 8),
    (8, 65, FileKind::Value, 8),
    (20, 0xff, FileKind::Value, 17),
    (25, 3, FileKind::Short, 43),
    (25, 1, FileKind::Rest, 39),
    (32, 0xff, FileKind::Short, 43),
    (33, 6, FileKind::Tag, 33),
    (40, 4, FileKind::Value, 40),
];

#[test]
fn broken_files(rt: HostRuntime) -> Result<(), Fail> {
    let alloc = rt.alloc();
    for &(place, byte, fault, offset) in &BROKEN {
        let mut file = SMALLEST;
        file[place] = byte;
        let Err(found) = read(alloc, &file) else {
            panic!(rt; "{place} is broken");
        };
        assert_eq!(rt; found, FileFault::At { fault, offset }, "at {place}");
    }
    Ok(())
}

#[test]
fn front_of_more(rt: HostRuntime) -> Result<(), Fail> {
    let alloc = rt.alloc();
    let mut bytes = SMALLEST.to_vec(alloc)?;
    bytes.push(9)?;
    let Err(
        FileFault::At {
            fault: FileKind::Rest,
            offset: 43,
        },
    ) = read(alloc, &bytes)
    else {
        panic!(rt; "a byte follows");
    };
    let Ok((_, _, 43)) = read_front(alloc, &bytes) else {
        panic!(rt; "the front is a history file");
    };
    Ok(())
}

#[test]
fn files_cut_short(rt: HostRuntime) -> Result<(), Fail> {
    let alloc = rt.alloc();
    for (size, offset) in [(0, 0), (7, 0), (8, 8), (42, 42)] {
        let Err(found) = read(alloc, &SMALLEST[..size]) else {
            panic!(rt; "{size} bytes are no file");
        };
        let fault = FileKind::Short;
        assert_eq!(rt; found, FileFault::At { fault, offset }, "of {size} bytes");
    }
    Ok(())
}

#[test]
fn text_past_the_end(rt: HostRuntime) -> Result<(), Fail> {
    let mut file = RESCUED;
    file[63] = 0xff;
    let Err(
        FileFault::At {
            fault: FileKind::Short,
            offset: 64,
        },
    ) = read(rt.alloc(), &file)
    else {
        panic!(rt; "the text is longer than the file");
    };
    Ok(())
}

// One hart, no ports, a budget of 1, and so many rescued calls within each other.
fn nested(rt: &HostRuntime, depth: u32) -> Result<Vec<u8>, Fail> {
    let mut bytes = b"rescueh1\x01\0\0\0\0\0\0\0\0\x01\0\0\0\0\0\0\0\x01\0\0\0\0\0\0\0".to_vec(
        rt.alloc(),
    )?;
    for _ in 0..depth {
        bytes.extend_from_slice(b"\x04\0\0\0\0\0\0\0\0\0\0\0\0\0\0\0\0\0\0\x01\0\0\0".as_slice())?;
    }
    bytes.extend_from_slice(b"\x05\x02".as_slice())?;
    Ok(bytes)
}

#[test]
fn sixteen_within_each_other(rt: HostRuntime) -> Result<(), Fail> {
    let alloc = rt.alloc();
    assert!(rt; read(alloc, &nested(&rt, 16)?).is_ok());
    let Err(
        FileFault::At {
            fault: FileKind::Deep,
            offset: 401,
        },
    ) = read(alloc, &nested(&rt, 17)?)
    else {
        panic!(rt; "seventeen are refused");
    };
    Ok(())
}
