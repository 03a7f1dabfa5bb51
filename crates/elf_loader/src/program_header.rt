ghost use Rattle.std.specs.Prelude.{◌≡◌, ◌+◌, ◌<◌, ◌≤◌, length};
ghost use Rattle.guest_words.specs.declared.limits.TheConstants.{LOADS_END};
ghost use Rattle.guest_words.specs.Image.{rights_of};

use crate::fields::{part, u32_at, u64_at};
use crate::segment::Segment;
use guest_words::Rights;

/// The fields of a program header that are read.
#[derive(Clone, Copy, Debug)]
pub struct ProgramHeader {
    /// 1 is a load, 2 and 3 ask for dynamic linking.
    pub kind: u32,
    pub rights: Rights,
    /// Where its bytes stand in the file.
    pub offset: u64,
    /// The guest address of its first byte.
    pub address: u64,
    /// How many bytes it has in the file.
    pub file_size: u64,
    /// How many bytes it has in memory.
    pub size: u64,
}

impl ProgramHeader {
    ghost use Rattle.elf_loader.specs.ProgramHeader.{StandsAt, load_from};
    ghost use Rattle.elf_loader.specs.Segment.{load_of};

    /// The header at a place of the file.
    pub fn at(file: &[u8], place: usize) -> ProgramHeader
        requires { place + 56 ≤ length file.now }
        ensures { StandsAt file.now place result }
    {
        ProgramHeader {
            kind: u32_at(file, place),
            rights: rights_of(u32_at(file, place + 4)),
            offset: u64_at(file, place + 8),
            address: u64_at(file, place + 16),
            file_size: u64_at(file, place + 32),
            size: u64_at(file, place + 40),
        }
    }

    /// The load that it describes.
    pub fn segment<'a>(&self, file: &'a [u8]) -> Segment<'a>
        requires filled { 0 < self.now.size }
        requires placed { self.now.address + self.now.size ≤ LOADS_END }
        ensures { load_of result ≡ load_from file.now self.now }
    {
        Segment {
            address: self.address,
            size: self.size,
            bytes: part(file, self.offset, self.file_size),
            rights: self.rights,
        }
    }
}

/// The rights of a program header's flags: read, write and exec are 4, 2 and 1, and write brings
/// read.
fn rights_of(flags: u32) -> Rights
    ensures { result ≡ rights_of flags }
{
    Rights {
        read: flags & 6 != 0,
        write: flags & 2 != 0,
        exec: flags & 1 != 0,
    }
}
