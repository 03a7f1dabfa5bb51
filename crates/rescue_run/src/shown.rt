//! Names of files as a person is shown them.
ghost use Rattle.std.specs.Prelude.{◌≡◌, ◌++◌, map, IfOk, OnOk, string_bytes, take};
ghost use Rattle.config_hints.specs.Shown.{printed, quoted};

use guest_words::MemoryWant;
use std::alloc::Global;

/// So many bytes of a name are shown.
const NAME_BYTES: usize = 60;

/// The byte where ASCII prints it, and `?` for every other.
fn printed(byte: u8) -> u8
    ensures { result ≡ printed byte }
{
    if 32 <= byte && byte <= 126 {
        byte
    } else {
        b'?'
    }
}

fn put_printed(text: &mut String, bytes: &[u8]) -> Result<(), MemoryWant>
    ensures ok { OnOk result
        (string_bytes text.new ≡ string_bytes text.old ++ map printed bytes.now) }
{
    for byte in bytes {
        text.push(char::from(printed(*byte)))?;
    }
    Ok(())
}

/// The first bytes of a name.
fn front(name: &[u8]) -> &[u8]
    ensures { result.now ≡ take 60 name.now }
{
    if name.len() <= NAME_BYTES {
        name
    } else {
        &name[..NAME_BYTES]
    }
}

/// The first bytes of a name in quotes.
pub fn quoted(alloc: Global, name: &str) -> Result<String, MemoryWant>
    ensures ok { IfOk result (λ text. string_bytes text ≡ quoted name.now) }
{
    let mut text = String::from_str(alloc, "'")?;
    put_printed(&mut text, front(name.as_bytes()))?;
    text.push_str("'")?;
    Ok(text)
}
