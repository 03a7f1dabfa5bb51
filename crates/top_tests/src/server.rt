//! A server of two connections, one of which sends a request that faults.
use crate::image::add_words;
use crate::replay::ReplayStart;
use crate::threads::{Task, done};
use edge_ports::{MemoryPort, MemorySource, Port};
use guest_words::Bytes;
use std::alloc::{AllocError, Global};
use std::process::Abort;
use std::sync::Wait;
use std::test::Fail;
use std::thread::Threads;
use stop_gate::OpenDoor;

/// An executable for RISC-V with the entry 0x10000, five program headers at 64, and three section
/// headers at 648.
const HEADER: [u64; 8] = [
    0x00010102464c457f,
    0,
    0x0000000100f30002,
    0x10000,
    64,
    648,
    0x0038004000000000,
    0x0000000300400005,
];

/// Text and data, a note, the stack's flags and RISC-V attributes: kind and flags, place in the
/// file, address twice, bytes there and in memory, alignment.
const SEGMENTS: [[u64; 7]; 5] = [
    [0x500000001, 344, 0x10000, 0x10000, 212, 212, 0x1000],
    [0x600000001, 560, 0x20000, 0x20000, 0, 4096, 0x1000],
    [4, 0, 0, 0, 0, 0, 0],
    [0x6474e551, 0, 0, 0, 0, 0, 0],
    [0x70000003, 0, 0, 0, 0, 0, 0],
];

// lui x8,0x20; addi x9,x0,3; lui x10,0x351; addi x10,x10,-256; lui x11,0x21; addi x12,x8,0
// addi x13,x0,0; addi x14,x8,0; addi x17,x0,220; ecall; bne x10,x0,0x10030; addi x9,x0,4
// 0x10030: slli x18,x9,6; add x18,x18,x8; addi x10,x9,0; addi x11,x18,0; addi x12,x0,16
// addi x17,x0,63; ecall; addi x11,x10,0; addi x10,x18,0; jal x1,0x100b0; addi x5,x0,75
// bge x10,x0,0x10064; addi x5,x0,69; 0x10064: sb x5,32(x18); addi x10,x9,0; addi x11,x18,32
// addi x12,x0,1; addi x17,x0,64; ecall; addi x5,x0,4; beq x9,x5,0x100a4
// 0x10084: lw x12,0(x8); beq x12,x0,0x100a4; addi x10,x8,0; addi x11,x0,0; addi x13,x0,0
// addi x17,x0,98; ecall; jal x0,0x10084; 0x100a4: addi x10,x0,0; addi x17,x0,93; ecall
// 0x100b0: addi x2,x2,-16; lbu x5,0(x10); sb x5,15(x2); addi x6,x0,120; bne x5,x6,0x100c8
// ld x7,0(x0); 0x100c8: addi x10,x11,0; addi x2,x2,16; jalr x0,0(x1)
const TEXT: [u32; 54] = [
    0x00020437, 0x00300493, 0x00351537, 0xf0050513, 0x000215b7, 0x00040613, 0x00000693, 0x00040713,
    0x0dc00893, 0x00000073, 0x00051463, 0x00400493, 0x00649913, 0x00890933, 0x00048513, 0x00090593,
    0x01000613, 0x03f00893, 0x00000073, 0x00050593, 0x00090513, 0x05c000ef, 0x04b00293, 0x00055463,
    0x04500293, 0x02590023, 0x00048513, 0x02090593, 0x00100613, 0x04000893, 0x00000073, 0x00400293,
    0x02548263, 0x00042603, 0x00060e63, 0x00040513, 0x00000593, 0x00000693, 0x06200893, 0x00000073,
    0xfe5ff06f, 0x00000513, 0x05d00893, 0x00000073, 0xff010113, 0x00054283, 0x005107a3, 0x07800313,
    0x00629463, 0x00003383, 0x00058513, 0x01010113, 0x00008067, 0,
];

/// No symbol, `_start` and `handle`: name, kind and section, value, size.
const SYMBOLS: [[u64; 3]; 3] = [
    [0, 0, 0],
    [0x0001001200000001, 0x10000, 0],
    [0x0001001200000008, 0x100b0, 36],
];

const NAMES: &[u8] = b"\0_start\0handle\0\0";

/// No section, the symbols and their names: kind, flags, address, place, size, link, alignment,
/// bytes of an entry.
const SECTIONS: [[u64; 8]; 3] = [
    [0, 0, 0, 0, 0, 0, 0, 0],
    [0x200000000, 0, 0, 560, 72, 2, 8, 24],
    [0x300000000, 0, 0, 632, 15, 0, 1, 0],
];

fn add(file: &mut Vec<u8>, fields: &[u64]) -> Result<(), AllocError> {
    for field in fields {
        file.extend_from_slice(&field.to_le_bytes())?;
    }
    Ok(())
}

fn program(alloc: Global) -> Result<Vec<u8>, AllocError> {
    let mut file = Vec::new(alloc);
    add(&mut file, &HEADER)?;
    for segment in SEGMENTS {
        add(&mut file, &segment)?;
    }
    add_words(&mut file, &TEXT)?;
    for symbol in SYMBOLS {
        add(&mut file, &symbol)?;
    }
    file.extend_from_slice(NAMES)?;
    for section in SECTIONS {
        add(&mut file, &section)?;
    }
    Ok(file)
}

/// A connection on which this request comes.
fn connection(alloc: Global, request: &str) -> Result<MemoryPort, AllocError> {
    let request = Bytes::of(request.as_bytes().to_vec(alloc)?);
    MemoryPort::with_room(alloc, request, 64, Vec::new(alloc)).map_err(|_| AllocError)
}

const POINTS: &str = "[[point]]\nfunction = \"handle\"\nreturns = -1\nkind = \"blocking\"\n";

const REPORT: &str = "\nrecords 4\nrescues 1\n\
    rescue depth 0 hart 1 point 00000000000100b0 fault load-rights pc 00000000000100c4 \
    steps 5 records 0 code -1\nend exit 0\n";

/// Whether the port was given just these bytes.
fn was_given(port: Option<&Box<dyn Port + Send>>, bytes: &[u8]) -> bool {
    match port {
        Some(port) => match port.given() {
            Some(given) => given == bytes,
            None => false,
        },
        None => false,
    }
}

/// Serves a request that is in order and one that faults, each on a connection of its own.
fn serve<R: Abort + Threads + Wait + Sync>(
    rt: &R,
    alloc: Global,
    words: &'static [&'static str],
) -> Result<(), Fail> {
    let program = program(alloc)?;
    let task = Task {
        words,
        program: &program,
        start: ReplayStart {
            points: POINTS,
            harts: 8,
            ports: 2,
            budget: 5_000_000,
        },
    };
    let mut ports: Vec<Box<dyn Port + Send>> = Vec::new(alloc);
    for request in ["ok\n", "x"] {
        let port = connection(alloc, request)?;
        ports.push(Box::new(alloc, port).map_err(|_| AllocError)?)?;
    }
    let input = MemorySource::new(Bytes::of(Vec::new(alloc)), Vec::new(alloc));
    let (answer, report) = done(rt, alloc, task, input, ports, &OpenDoor)?;
    let ports = answer.devices.ports.as_slice();
    assert!(rt; was_given(ports.first(), b"K"));
    assert!(rt; was_given(ports.get(1), b"E"));
    assert!(rt; report.given().ends_with(REPORT.as_bytes()));
    Ok(())
}

// In every order of the turns, on threads and on one.
#[test]
fn server_survives_a_bad_request(rt: HostRuntime) -> Result<(), Fail> {
    let alloc = rt.alloc();
    serve(&rt, alloc, &["run", "--points=f", "p", "a:b", "c:d"])?;
    serve(&rt, alloc, &["alone", "--points=f", "p", "a:b", "c:d"])?;
    Ok(())
}
