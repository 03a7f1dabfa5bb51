ghost use Rattle.std.specs.Prelude.{◌≡◌, ◌+◌, ◌≤◌, ◌<◌, length, take, drop};
ghost use Rattle.guest_words.specs.ElfFields.{number};

use byteorder::{ByteOrder, LittleEndian};

/// The byte at `place`.
pub fn u8_at(file: &[u8], place: usize) -> u8
    requires { place < length file.now }
    ensures { result ≡ number 1 place file.now }
{
    file[place]
}

/// The number in the 2 bytes from `place` on, the least significant first.
pub fn u16_at(file: &[u8], place: usize) -> u16
    requires { place + 2 ≤ length file.now }
    ensures { result ≡ number 2 place file.now }
{
    LittleEndian::read_u16(&file[place..])
}

/// The number in the 4 bytes from `place` on, the least significant first.
pub fn u32_at(file: &[u8], place: usize) -> u32
    requires { place + 4 ≤ length file.now }
    ensures { result ≡ number 4 place file.now }
{
    LittleEndian::read_u32(&file[place..])
}

/// The number in the 8 bytes from `place` on, the least significant first.
pub fn u64_at(file: &[u8], place: usize) -> u64
    requires { place + 8 ≤ length file.now }
    ensures { result ≡ number 8 place file.now }
{
    LittleEndian::read_u64(&file[place..])
}

/// What follows an offset, and nothing past the end.
pub fn tail(bytes: &[u8], offset: u64) -> &[u8]
    ensures { result.now ≡ drop offset bytes.now }
{
    &bytes[bytes.len().min(offset as usize)..]
}

/// So many bytes from an offset on, as far as there are any.
pub fn part(bytes: &[u8], offset: u64, size: u64) -> &[u8]
    ensures { result.now ≡ take size (drop offset bytes.now) }
{
    let rest = tail(bytes, offset);
    &rest[..rest.len().min(size as usize)]
}
