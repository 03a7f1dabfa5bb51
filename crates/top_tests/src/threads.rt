//! Programs of several harts, each with a worker in a thread of its own.
use crate::case::{list, shelf, sink};
use crate::image::image;
use crate::meeting::{Meeting, Noted};
use crate::replay::{ReplayStart, replays};
use edge_ports::{MemorySink, MemorySource, Port, Source};
use guest_words::Bytes;
use rescue_run::{Answer, top};
use run_history::Entry;
use std::alloc::{AllocError, Global};
use std::process::Abort;
use std::sync::Wait;
use std::test::Fail;
use std::thread::Threads;
use stop_gate::{Door, OpenDoor};

/// A command that is run on threads, with the files that it names and what they start.
#[derive(Clone, Copy)]
pub struct Task<'a> {
    pub words: &'static [&'static str],
    pub program: &'a [u8],
    pub start: ReplayStart<'a>,
}

/// Does a task, and asserts that it ends with status 0 and a history that is a run. Answers that
/// and what the report sink was given.
pub fn done<R: Abort + Threads + Wait + Sync, S: Source + Send, D: Door>(
    rt: &R,
    alloc: Global,
    task: Task,
    input: S,
    ports: Vec<Box<dyn Port + Send>>,
    door: &D,
) -> Result<(Answer<S, MemorySink>, MemorySink), Fail> {
    let words = list(alloc, task.words)?;
    let mut files = shelf(alloc, task.program.to_vec(alloc)?, Some(task.start.points))?;
    let (out, err, mut report) = (sink(alloc, &[])?, sink(alloc, &[])?, sink(alloc, &[])?);
    let answer = top(
        rt,
        alloc,
        &words,
        &mut files,
        input,
        out,
        err,
        ports,
        &mut report,
        door,
    );
    assert_eq!(rt; answer.status, 0);
    let history = answer.history.as_ref().ok_or("a history")?;
    assert!(rt; replays(alloc, task.program, task.start, history.items())?);
    Ok((answer, report))
}

// lui x8,0x20; addi x9,x0,0; addi x18,x0,3; 0x1000c: lui x10,0x10; addi x10,x10,256
// addi x9,x9,1; slli x11,x9,10; add x11,x11,x8; addi x11,x11,1024; addi x17,x0,220; ecall
// beq x10,x0,0x1003c; addi x18,x18,-1; bne x18,x0,0x1000c; addi x9,x0,0
// 0x1003c: slli x19,x9,3; add x19,x19,x8; addi x19,x19,64
// 0x10048: addi x10,x0,0; addi x11,x19,0; addi x12,x0,1; addi x17,x0,63; ecall
// bge x0,x10,0x1006c; lbu x10,0(x19); jal x1,0x100d8; jal x0,0x10048
// 0x1006c: addi x5,x8,8; addi x6,x0,1; amoadd.w x7,x6,(x5); bne x9,x0,0x100b8
// 0x1007c: lw x12,8(x8); addi x7,x0,4; beq x12,x7,0x100a0; addi x10,x8,8; addi x11,x0,0
// addi x13,x0,0; addi x17,x0,98; ecall; jal x0,0x1007c
// 0x100a0: addi x10,x0,1; addi x11,x8,0; addi x12,x0,8; addi x17,x0,64; ecall; jal x0,0x100cc
// 0x100b8: addi x10,x8,8; addi x11,x0,1; addi x12,x0,1; addi x17,x0,98; ecall
// 0x100cc: addi x10,x0,0; addi x17,x0,93; ecall
// 0x100d8: addi x2,x2,-16; addi x5,x10,0; bne x10,x0,0x100e8; addi x5,x0,1000
// 0x100e8: amoadd.d x6,x5,(x8); sd x6,0(x2); bne x10,x0,0x100f8; ld x7,0(x0)
// 0x100f8: addi x2,x2,16; jalr x0,0(x1)
const SUM: [u32; 64] = [
    0x00020437, 0x00000493, 0x00300913, 0x00010537, 0x10050513, 0x00148493, 0x00a49593, 0x008585b3,
    0x40058593, 0x0dc00893, 0x00000073, 0x00050863, 0xfff90913, 0xfc091ce3, 0x00000493, 0x00349993,
    0x008989b3, 0x04098993, 0x00000513, 0x00098593, 0x00100613, 0x03f00893, 0x00000073, 0x00a05863,
    0x0009c503, 0x074000ef, 0xfe1ff06f, 0x00840293, 0x00100313, 0x0062a3af, 0x04049063, 0x00842603,
    0x00400393, 0x00760e63, 0x00840513, 0x00000593, 0x00000693, 0x06200893, 0x00000073, 0xfe1ff06f,
    0x00100513, 0x00040593, 0x00800613, 0x04000893, 0x00000073, 0x0180006f, 0x00840513, 0x00100593,
    0x00100613, 0x06200893, 0x00000073, 0x00000513, 0x05d00893, 0x00000073, 0xff010113, 0x00050293,
    0x00051463, 0x3e800293, 0x0054332f, 0x00613023, 0x00051463, 0x00003383, 0x01010113, 0x00008067,
];

const SUM_POINTS: &str = "[[point]]\nentry = 0x100d8\nreturns = -1\n";

/// 2,000 times four ones and a zero.
fn bytes(alloc: Global) -> Result<MemorySource, AllocError> {
    let mut bytes = Vec::new(alloc);
    for _ in 0..2000 {
        bytes.extend_from_slice(&[1, 1, 1, 1, 0])?;
    }
    Ok(MemorySource::new(Bytes::of(bytes), Vec::new(alloc)))
}

/// Four harts add the bytes of the input, one by one. Each zero is a fault, before which 1,000 was
/// added that is taken back.
fn add_bytes<R: Abort + Threads + Wait + Sync, S: Source + Send, D: Door>(
    rt: &R,
    alloc: Global,
    input: S,
    door: &D,
) -> Result<(), Fail> {
    let program = image(alloc, &SUM, Some(&[]))?;
    let task = Task {
        words: &["run", "--points=f", "--harts=4", "p"],
        program: &program,
        start: ReplayStart {
            points: SUM_POINTS,
            harts: 4,
            ports: 0,
            budget: 5_000_000,
        },
    };
    let (answer, _) = done(rt, alloc, task, input, Vec::new(alloc), door)?;
    let history = answer.history.as_ref().ok_or("a history")?;
    assert!(rt; answer.devices.out.given() == 8000u64.to_le_bytes().as_slice());
    assert_eq!(rt; rescues(history.items()), 2000);
    Ok(())
}

/// How many of the entries are rescued calls.
fn rescues(entries: &[Entry]) -> usize {
    entries
        .iter()
        .filter(|entry| matches!(entry, Entry::Rescued { .. }))
        .count()
}

#[test]
fn four_harts(rt: HostRuntime) -> Result<(), Fail> {
    let alloc = rt.alloc();
    add_bytes(&rt, alloc, bytes(alloc)?, &OpenDoor)
}

// The first byte is taken by the first worker, while the others are held at the door, and the
// second one by another, while the first worker is held there.
#[test]
fn two_workers_meet(rt: HostRuntime) -> Result<(), Fail> {
    let alloc = rt.alloc();
    let meeting = Meeting::new();
    let input = Noted {
        source: bytes(alloc)?,
        meeting: &meeting,
    };
    add_bytes(&rt, alloc, input, &meeting)?;
    assert!(rt; meeting.was_met());
    Ok(())
}
