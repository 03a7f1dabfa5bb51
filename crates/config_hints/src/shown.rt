ghost use Rattle.std.specs.Prelude.{◌≡◌, ◌++◌, map, OnOk, string_bytes, take};
ghost use Rattle.config_hints.specs.Shown.{address_text, end_of, more_ranges, printed, quoted, range_text, ranges_text};

use guest_words::{MemoryWant, Span};

/// So many bytes of a name are shown.
const NAME_BYTES: usize = 60;

/// The byte where ASCII prints it, and `?` for every other.
fn printed(byte: u8) -> u8
    ensures { result ≡ printed byte }
{
    if 32 <= byte && byte <= 126 {
        byte
    } else {
        b'?'
    }
}

fn put_printed(text: &mut String, bytes: &[u8]) -> Result<(), MemoryWant>
    ensures ok { OnOk result
        (string_bytes text.new ≡ string_bytes text.old ++ map printed bytes.now) }
{
    for byte in bytes {
        text.push(char::from(printed(*byte)))?;
    }
    Ok(())
}

/// The first bytes of a name.
fn front(name: &[u8]) -> &[u8]
    ensures { result.now ≡ take 60 name.now }
{
    if name.len() <= NAME_BYTES {
        name
    } else {
        &name[..NAME_BYTES]
    }
}

/// Appends the first bytes of a name in quotes.
pub fn put_quoted(text: &mut String, name: &str) -> Result<(), MemoryWant>
    ensures ok { OnOk result
        (string_bytes text.new ≡ string_bytes text.old ++ quoted name.now) }
{
    text.push_str("'")?;
    put_printed(text, front(name.as_bytes()))?;
    text.push_str("'")?;
    Ok(())
}

/// Appends an address in hexadecimal digits.
pub fn put_address(text: &mut String, address: u64) -> Result<(), MemoryWant>
    ensures ok { OnOk result
        (string_bytes text.new ≡ string_bytes text.old ++ address_text address) }
{
    write!(text, "0x{address:x}")?;
    Ok(())
}

/// Where a range ends, or the last address where it passes that.
fn end_of(span: &Span) -> u64
    ensures { result ≡ end_of span.now }
{
    span.from.saturating_add(span.size)
}

fn put_range(text: &mut String, span: &Span) -> Result<(), MemoryWant>
    ensures ok { OnOk result
        (string_bytes text.new ≡ string_bytes text.old ++ range_text span.now) }
{
    put_address(text, span.from)?;
    text.push_str(" to ")?;
    put_address(text, end_of(span))
}

fn put_more_ranges(text: &mut String, spans: &[Span]) -> Result<(), MemoryWant>
    ensures ok { OnOk result
        (string_bytes text.new ≡ string_bytes text.old ++ more_ranges spans.now) }
{
    for span in spans {
        text.push_str(", ")?;
        put_range(text, span)?;
    }
    Ok(())
}

/// Appends ranges of addresses.
pub fn put_ranges(text: &mut String, spans: &[Span]) -> Result<(), MemoryWant>
    ensures ok { OnOk result
        (string_bytes text.new ≡ string_bytes text.old ++ ranges_text spans.now) }
{
    match spans {
        [] => {
            text.push_str("none")?;
            Ok(())
        }
        [first, rest @ ..] => {
            put_range(text, first)?;
            put_more_ranges(text, rest)
        }
    }
}
