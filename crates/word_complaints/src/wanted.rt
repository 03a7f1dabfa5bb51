ghost use Rattle.std.specs.Prelude.{◌≡◌, ◌&&◌, IfOk, nat_le, string_bytes};
ghost use Rattle.word_complaints.specs.Options.{fits, wanted_text};

use guest_words::MemoryWant;
use std::alloc::Global;

/// What an option wants for a value.
#[derive(Clone, Copy, Debug, PartialEq, Eq)]
pub enum Wanted {
    /// A file's name: any text.
    File,
    /// A number from `least` to `most`.
    Number { least: u64, most: u64 },
    /// A number of `i64`.
    Signed,
}

impl Wanted {
    /// Whether the text is such a value.
    pub fn fits(self, text: &str) -> bool
        ensures value { result ≡ fits self text.now }
    {
        match self {
            Wanted::File => true,
            Wanted::Number { least, most } => is_number(least, most, text),
            Wanted::Signed => text.parse::<i64>().is_ok(),
        }
    }

    /// What is wanted, in words.
    pub fn text(self, alloc: Global) -> Result<String, MemoryWant>
        ensures ok { IfOk result (λ text. string_bytes text ≡ wanted_text self) }
    {
        match self {
            Wanted::File => Ok(String::from_str(alloc, "a file's name")?),
            Wanted::Number { least, most } => {
                Ok(format!(in alloc; "a number from {least} to {most}")?)
            }
            Wanted::Signed => Ok(String::from_str(
                alloc,
                "a number from -9223372036854775808 to 9223372036854775807",
            )?),
        }
    }
}

/// Whether the text is a number from `least` to `most`.
pub fn is_number(least: u64, most: u64, text: &str) -> bool
    ensures value { result ≡ fits (Wanted.Number least most) text.now }
{
    match text.parse::<u64>() {
        Ok(number) => is_within(least, most, number),
        Err(_) => false,
    }
}

fn is_within(least: u64, most: u64, number: u64) -> bool
    ensures value { result ≡ (nat_le least number && nat_le number most) }
{
    least <= number && number <= most
}
