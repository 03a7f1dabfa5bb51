ghost use Rattle.std.specs.Prelude.{◌≡◌, ◌≤◌, length, IfOk};
ghost use Rattle.guest_words.specs.Image.{IsLoadList};

use crate::{AuditFiles, No, PortFiles, Verdict, audit, no_text, yes_text};
use guest_words::{Bytes, Image, Load, Loads, MemoryWant, Points, Rights};
use history_file::read;
use std::alloc::Global;
use std::process::Abort;
use std::test::Fail;

// li a0, 7; li a7, 93; ecall
const EXIT: [u8; 12] = [0x13, 5, 0x70, 0, 0x93, 8, 0xd0, 5, 0x73, 0, 0, 0];

// Its history on eight harts without a port: two acts of hart 0, and its exit with 7.
const SAVED: [u8; 43] = *b"rescueh1\x08\0\0\0\0\0\0\0\0\x40\x4b\x4c\0\0\0\0\0\
    \x02\0\0\0\0\0\0\0\x01\0\x02\0\0\0\x05\0\0\x07";

fn image(alloc: Global, text: &[u8]) -> Result<Image, MemoryWant>
    requires few { length text.now ≤ 64 }
    ensures loads { IfOk result (λ image. IsLoadList image.loads) }
{
    let mut loads = Vec::new(alloc);
    loads.push(Load {
        address: 0x10000,
        size: 64,
        bytes: Bytes::of(text.to_vec(alloc)?),
        rights: Rights {
            read: true,
            write: false,
            exec: true,
        },
    })?;
    Ok(Image {
        loads: Loads::of(loads),
        entry: 0x10000,
    })
}

fn files(alloc: Global, out: &[u8]) -> Result<AuditFiles, MemoryWant> {
    Ok(AuditFiles {
        input: Bytes::of(Vec::new(alloc)),
        out: Bytes::of(out.to_vec(alloc)?),
        err: Bytes::of(Vec::new(alloc)),
        ports: PortFiles::of(Vec::new(alloc)),
    })
}

// What is said of the bytes, if they are a history file.
fn verdict(alloc: Global, file: &[u8], out: &[u8]) -> Result<Option<Verdict>, MemoryWant> {
    let Ok((head, history)) = read(alloc, file) else {
        return Ok(None);
    };
    let image = image(alloc, &EXIT)?;
    let points = Points::of(Vec::new(alloc));
    let files = files(alloc, out)?;
    Ok(Some(audit(alloc, &image, &points, &head, &history, &files)?))
}

#[test]
fn saved_history_audited(rt: HostRuntime) -> Result<(), Fail> {
    assert!(rt; verdict(rt.alloc(), &SAVED, b"")? == Some(Verdict::Yes));
    let Ok((_, history)) = read(rt.alloc(), &SAVED) else {
        panic!(rt; "the bytes are a history file");
    };
    let text = yes_text(rt.alloc(), &history)?;
    assert!(rt; text.as_str() == "audit yes steps 2 records 0 rescues 0\n");
    Ok(())
}

// The saved file with a byte changed: its place, the byte, and what is said.
const BROKEN: [(usize, u8, No); 3] = [
    (35, 1, No::Entry { index: 1 }),
    (9, 1, No::Ports { named: 0, kept: 1 }),
    (42, 8, No::Entry { index: 1 }),
];

#[test]
fn audit_says_no(rt: HostRuntime) -> Result<(), Fail> {
    for &(place, byte, refusal) in &BROKEN {
        let mut file = SAVED;
        file[place] = byte;
        assert!(rt;
            verdict(rt.alloc(), &file, b"")? == Some(Verdict::No(refusal)),
            "at {place}"
        );
    }
    let device = No::Device { number: 1 };
    assert!(rt; verdict(rt.alloc(), &SAVED, b"h")? == Some(Verdict::No(device)));
    assert!(rt; no_text(rt.alloc(), device)?.as_str() == "audit no device 1\n");
    Ok(())
}
