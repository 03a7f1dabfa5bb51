ghost use Rattle.std.specs.Prelude.{◌≡◌, ◌++◌, OnOk, string_bytes};
ghost use Rattle.rescue_report.specs.Numbers.{code_text, hexadecimal};

use guest_words::{MemoryWant, Ret};

/// Appends a word in 16 hexadecimal digits.
pub fn put_hexadecimal(text: &mut String, word: u64) -> Result<(), MemoryWant>
    ensures ok { OnOk result
        (string_bytes text.new ≡ string_bytes text.old ++ hexadecimal word) }
{
    write!(text, "{word:016x}")?;
    Ok(())
}

/// Appends what a rescued call returned: a signed number, or `void`.
pub(crate) fn put_code(text: &mut String, ret: Ret) -> Result<(), MemoryWant>
    ensures ok { OnOk result
        (string_bytes text.new ≡ string_bytes text.old ++ code_text ret) }
{
    match ret {
        Ret::Code(word) => {
            let code = word.cast_signed();
            write!(text, "{code}")?;
        }
        Ret::Void => text.push_str("void")?,
    }
    Ok(())
}
