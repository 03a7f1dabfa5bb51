ghost use Rattle.std.specs.Prelude.{◌≡◌, ◌≤◌, length, IfOk};
ghost use Rattle.guest_words.specs.Image.{IsLoadList};

use crate::Plain;
use guest_words::{
    Bytes, Ending, Fault, FaultName, Image, Kind, Load, Loads, MemoryWant, Point, PointRef, Points,
    Ret, Rights,
};
use run_history::Entry;
use sqlite_items::Items;
use std::alloc::Global;
use std::test::Fail;

// li a0, 7; li a7, 93; ecall
const EXIT: [u8; 12] = [0x13, 5, 0x70, 0, 0x93, 8, 0xd0, 5, 0x73, 0, 0, 0];

// li a7, 214; ecall; addi a0, a0, 16; ecall
const BREAK: [u8; 16] = [
    0x93, 8, 0x60, 0x0d, 0x73, 0, 0, 0, 0x13, 5, 5, 1, 0x73, 0, 0, 0,
];

// jal ra, 8 over one word, to a word that is no instruction
const JUMP: [u8; 12] = [0xef, 0, 0x80, 0, 0, 0, 0, 0, 0, 0, 0, 0];

const POINT: PointRef = PointRef { entry: 0x10008 };

fn image(alloc: Global, text: &[u8]) -> Result<Image, MemoryWant>
    requires few { length text.now ≤ 64 }
    ensures loads { IfOk result (λ image. IsLoadList image.loads) }
{
    let mut loads = Vec::new(alloc);
    loads.push(Load {
        address: 0x10000,
        size: 64,
        bytes: Bytes::of(text.to_vec(alloc)?),
        rights: Rights {
            read: true,
            write: false,
            exec: true,
        },
    })?;
    Ok(Image {
        loads: Loads::of(loads),
        entry: 0x10000,
    })
}

fn points(alloc: Global) -> Result<Points, MemoryWant> {
    let mut points = Vec::new(alloc);
    points.push(Point {
        entry: POINT.entry,
        codes: [Ret::Code(9); 8],
        kind: Kind::Blocking,
        left: None,
    })?;
    Ok(Points::of(points))
}

fn started(alloc: Global, text: &[u8]) -> Result<Plain, MemoryWant>
    requires few { length text.now ≤ 64 }
{
    Plain::start(alloc, &image(alloc, text)?, &points(alloc)?, 1, 0, 100)
}

// The state after so many acts, if they can be made.
fn after_acts(alloc: Global, start: Plain, count: u32) -> Result<Option<Plain>, MemoryWant> {
    start.checked(alloc, &Entry::Ran { hart: 0, count })
}

// The place of the hart, and what it has in a0.
fn place(plain: &Plain) -> Option<(u64, u64)> {
    match plain.hart(0) {
        None => None,
        Some(hart) => Some((hart.pc, hart.regs[10])),
    }
}

#[test]
fn a_program_ends(rt: HostRuntime) -> Result<(), Fail> {
    let start = started(rt.alloc(), &EXIT)?;
    let ran = after_acts(rt.alloc(), start, 2)?.expect(&rt, "two acts are made");
    assert!(rt; ran.steps() == 2);
    let ending = Ending::Exit { hart: 0, code: 7 };
    let ended = ran.checked(rt.alloc(), &Entry::Ended { ending })?;
    assert!(rt; ended.expect(&rt, "the ending is due").ending() == Some(ending));
    Ok(())
}

#[test]
fn a_call_that_ends_the_run_is_no_act(rt: HostRuntime) -> Result<(), Fail> {
    let start = started(rt.alloc(), &EXIT)?;
    assert!(rt; after_acts(rt.alloc(), start, 3)?.is_none());
    Ok(())
}

// The heap begins at the first page behind the image.
#[test]
fn a_run_goes_on_behind_a_break_that_moves(rt: HostRuntime) -> Result<(), Fail> {
    let start = started(rt.alloc(), &BREAK)?;
    let ran = after_acts(rt.alloc(), start, 4)?.expect(&rt, "four acts are made");
    assert!(rt; ran.brk() == 0x11010 && place(&ran) == Some((0x10010, 0x11010)));
    assert!(rt; ran.page_from(0x10001) == Some(0x11000));
    Ok(())
}

fn rescued(alloc: Global) -> Entry {
    Entry::Rescued {
        hart: 0,
        point: POINT,
        fault: Fault {
            name: FaultName::Illegal,
            pc: POINT.entry,
        },
        inside: Items::from_vec(Vec::new(alloc)),
    }
}

#[test]
fn a_call_is_taken_back(rt: HostRuntime) -> Result<(), Fail> {
    let start = started(rt.alloc(), &JUMP)?;
    let arrived = after_acts(rt.alloc(), start, 1)?.expect(&rt, "the jump is made");
    let back = arrived.checked(rt.alloc(), &rescued(rt.alloc()))?;
    let back = back.expect(&rt, "the rescue is licensed");
    assert!(rt; place(&back) == Some((0x10004, 9)) && back.frames_at(0) == 0);
    Ok(())
}
