ghost use Rattle.std.specs.Prelude.{◌+◌, ◌*◌, ◌≤◌, length, OnOk};
ghost use Rattle.guest_words.specs.ElfFields.{e_phoff, e_phnum};
ghost use Rattle.guest_words.specs.Rules.{first_broken};
ghost use Rattle.guest_words.specs.Image.{header_rules};
ghost use Rattle.elf_loader.specs.Checks.{Tells};

use crate::fields::{u8_at, u16_at, u32_at, u64_at};
use crate::rules::{Broken, refuse};
use guest_words::ElfFault;
use guest_words::limits::PROGRAM_HEADERS;

/// The first four bytes of a file, as a number.
const MAGIC: u32 = 0x464c_457f;

/// Tries the rules on the file's header.
pub fn check_header(file: &[u8]) -> Result<(), Broken<ElfFault>>
    ensures rules { Tells result (first_broken (header_rules file.now)) }
    ensures long { OnOk result (64 ≤ length file.now) }
    ensures few { OnOk result (e_phnum file.now ≤ 64) }
    ensures inside { OnOk result (e_phoff file.now + 56 * e_phnum file.now ≤ length file.now) }
{
    refuse(file.len() < 64, ElfFault::TooShort, file.len() as u64)?;
    refuse(u32_at(file, 0) != MAGIC, ElfFault::Magic, 0)?;
    refuse(u8_at(file, 4) != 2, ElfFault::Class, 4)?;
    refuse(u8_at(file, 5) != 1, ElfFault::ByteOrder, 5)?;
    refuse(u8_at(file, 6) != 1, ElfFault::Version, 6)?;
    refuse(u16_at(file, 16) != 2, ElfFault::FileType, 16)?;
    refuse(u16_at(file, 18) != 243, ElfFault::Machine, 18)?;
    refuse(u32_at(file, 20) != 1, ElfFault::Version, 20)?;
    refuse(u32_at(file, 48) & 7 != 0, ElfFault::Flags, 48)?;
    refuse(u16_at(file, 54) != 56, ElfFault::HeaderTable, 54)?;
    let count = u16_at(file, 56);
    refuse(
        count == 0 || u64::from(count) > PROGRAM_HEADERS,
        ElfFault::HeaderTable,
        56,
    )?;
    let table_end = u128::from(u64_at(file, 32)) + 56 * u128::from(count);
    refuse(table_end > file.len() as u128, ElfFault::HeadersOutside, 32)
}
