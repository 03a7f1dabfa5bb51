ghost use Rattle.std.specs.Prelude.{◌≡◌, ◌++◌, map, IfOk, OnOk};
ghost use Rattle.load_maker.specs.File.{load_file, load_header, words_of};
ghost use Rattle.load_maker.specs.Program.{inst_of};

use crate::encoder::encode;
use crate::program::{Line, PROGRAM};
use guest_words::{Inst, MemoryWant};
use std::alloc::Global;

/// The header of the file: an executable for RISC-V, of 64 bits, little-endian, with the entry
/// 0x10000, two program headers at 64 and no sections.
const FILE_HEADER: [u8; 64] = [
    0x7f, 0x45, 0x4c, 0x46, 2, 1, 1, 0, 0, 0, 0, 0, 0, 0, 0, 0, 2, 0, 0xf3, 0, 1, 0, 0, 0, 0, 0, 1,
    0, 0, 0, 0, 0, 0x40, 0, 0, 0, 0, 0, 0, 0, 0, 0, 0, 0, 0, 0, 0, 0, 0, 0, 0, 0, 0x40, 0, 0x38, 0,
    2, 0, 0x40, 0, 0, 0, 0, 0,
];

/// The load's program as an ELF file.
pub(crate) fn load_file(alloc: Global) -> Result<Vec<u8>, MemoryWant>
    ensures ok { IfOk result (λ file. file.items ≡ load_file) }
{
    let mut file = FILE_HEADER.to_vec(alloc)?;
    add_header(&mut file, 5, 176, 0x10000, 256, 256)?;
    add_header(&mut file, 6, 432, 0x20000, 0, 4096)?;
    add_words(&mut file, &PROGRAM)?;
    Ok(file)
}

/// Appends the header of a load: its flags, its place in the file, its address, its bytes there and
/// in memory.
fn add_header(
    file: &mut Vec<u8>,
    flags: u32,
    place: u64,
    address: u64,
    filled: u64,
    size: u64,
) -> Result<(), MemoryWant>
    ensures ok { OnOk result
        (file.new.items ≡ file.old.items ++ load_header flags place address filled size) }
{
    file.extend_from_slice(&1u32.to_le_bytes())?;
    file.extend_from_slice(&flags.to_le_bytes())?;
    file.extend_from_slice(&place.to_le_bytes())?;
    file.extend_from_slice(&address.to_le_bytes())?;
    file.extend_from_slice(&address.to_le_bytes())?;
    file.extend_from_slice(&filled.to_le_bytes())?;
    file.extend_from_slice(&size.to_le_bytes())?;
    file.extend_from_slice(&4096u64.to_le_bytes())?;
    Ok(())
}

/// Appends the words of instructions.
fn add_words(file: &mut Vec<u8>, lines: &[Line]) -> Result<(), MemoryWant>
    ensures ok { OnOk result
        (file.new.items ≡ file.old.items ++ words_of (map inst_of lines.now)) }
{
    for &(op, rd, rs1, rs2, imm) in lines {
        let inst = Inst {
            op,
            rd,
            rs1,
            rs2,
            imm,
        };
        file.extend_from_slice(&encode(&inst).to_le_bytes())?;
    }
    Ok(())
}
