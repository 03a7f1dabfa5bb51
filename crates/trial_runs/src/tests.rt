use crate::{Subject, Tries, try_points};
use elf_loader::load;
use elf_symbols::functions;
use guest_words::{Bytes, Ending, FaultName};
use rescue_trial::Trial;
use std::alloc::{AllocError, Global};
use std::test::Fail;

/// A number written over a file, from a place on, in so many bytes.
type Part = (usize, usize, u64);

/// A program of two loads, with the functions `_start` at 0x10000 and `f` at 0x10018: from 224 on
/// there are its symbols, from 296 on their names, from 312 on three section headers.
const PARTS: [Part; 41] = [
    (0, 8, 0x0001_0102_464c_457f),
    (16, 2, 2),
    (18, 2, 243),
    (20, 4, 1),
    (24, 8, 0x10000),
    (32, 8, 64),
    (40, 8, 312),
    (52, 2, 64),
    (54, 2, 56),
    (56, 2, 2),
    (58, 2, 64),
    (60, 2, 3),
    (64, 4, 1),
    (68, 4, 5),
    (72, 8, 176),
    (80, 8, 0x10000),
    (96, 8, 44),
    (104, 8, 44),
    (112, 8, 4096),
    (120, 4, 1),
    (124, 4, 6),
    (128, 8, 220),
    (136, 8, 0x20000),
    (152, 8, 1),
    (160, 8, 4096),
    (168, 8, 4096),
    (248, 4, 1),
    (252, 1, 0x12),
    (254, 2, 1),
    (256, 8, 0x10000),
    (272, 4, 8),
    (276, 1, 0x12),
    (278, 2, 1),
    (280, 8, 0x10018),
    (380, 4, 2),
    (400, 8, 224),
    (408, 8, 72),
    (416, 4, 2),
    (432, 8, 24),
    (444, 4, 3),
    (464, 8, 296),
];

// lui x8,0x20; jal x1,f; lbu x5,0(x8); add x10,x10,x5; addi x17,x0,93; ecall
// f: addi x5,x0,34; sb x5,0(x8); addi x6,x0,51; sb x5,0(x8); ld x7,0(x0)
const CALLS: [u32; 11] = [
    0x00020437, 0x014000ef, 0x00044283, 0x00550533, 0x05d00893, 0x00000073, 0x02200293, 0x00540023,
    0x03300293, 0x00540023, 0x00003383,
];

// addi x17,x0,93; addi x10,x0,7; ecall
const SMALLEST: [u32; 3] = [0x05d00893, 0x00700513, 0x00000073];

fn write(file: &mut Vec<u8>, part: Part) {
    let (place, width, value) = part;
    for (k, byte) in value.to_le_bytes().iter().take(width).enumerate() {
        if let Some(old) = file.get_mut(place.wrapping_add(k)) {
            *old = *byte;
        }
    }
}

/// The program with these words; its data begin with the byte 17.
fn program(alloc: Global, words: &[u32]) -> Result<Vec<u8>, AllocError> {
    let mut file = vec![in alloc; 0; 296]?;
    file.extend_from_slice(b"\0_start\0f\0")?;
    file.resize(504, 0)?;
    for part in PARTS {
        write(&mut file, part);
    }
    write(&mut file, (472, 8, 10));
    write(&mut file, (220, 1, 17));
    for (k, word) in words.iter().take(11).enumerate() {
        write(
            &mut file,
            (k.wrapping_mul(4).wrapping_add(176), 4, u64::from(*word)),
        );
    }
    Ok(file)
}

/// What the program with these words comes to.
fn tries(alloc: Global, words: &[u32], returns: i64) -> Result<Tries, Fail> {
    let file = program(alloc, words)?;
    let image = load(alloc, &file)?;
    let symbols = functions(&file)?;
    let subject = Subject {
        image,
        harts: 1,
        budget: 1_000,
        seed: 0,
        input: Bytes::of(Vec::new(alloc)),
    };
    Ok(try_points(alloc, &subject, &symbols, returns)?)
}

#[test]
fn try_a_call_path(rt: HostRuntime) -> Result<(), Fail> {
    for (returns, code) in [(-17, 0), (-2, 15)] {
        let Tries::Faulted {
            hart,
            fault,
            trials,
        } = tries(rt.alloc(), &CALLS, returns)?
        else {
            return Err(Fail::new("another answer"));
        };
        assert!(rt; hart == 0 && fault.name == FaultName::LoadRights && fault.pc == 0x10028);
        let [
            Trial {
                entry,
                ending,
                rescues,
            },
        ] = trials.items()
        else {
            return Err(Fail::new("another answer"));
        };
        assert!(rt; *entry == 0x10018 && *rescues == 1);
        assert!(rt; *ending == Ending::Exit { hart: 0, code });
    }
    Ok(())
}

#[test]
fn try_without_a_fault(rt: HostRuntime) -> Result<(), Fail> {
    let came = tries(rt.alloc(), &SMALLEST, -1)?;
    assert!(rt; matches!(came, Tries::Ended(Ending::Exit { hart: 0, code: 7 })));
    Ok(())
}
