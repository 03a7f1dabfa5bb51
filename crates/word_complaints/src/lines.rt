ghost use Rattle.std.specs.Prelude.{◌≡◌, ◌<◌, IfOk, map, string_bytes};
ghost use Rattle.program_words.specs.Words.{texts};
ghost use Rattle.word_complaints.specs.Lines.{command_lines, complaint_line, complaint_text, lines_of, shown, shown_byte, unknown_line, unknown_lines};
ghost use Rattle.word_complaints.specs.declared.complaint.Complaint.TheVariants as complaint;

use crate::complaint::Complaint;
use crate::option_name::OptionName;
use crate::walk::complaint;
use guest_words::MemoryWant;
use program_words::CommandKind;
use program_words::limits::LOADS;
use std::alloc::Global;

/// The byte as it is shown.
fn shown_byte(byte: u8) -> u8
    ensures value { result ≡ shown_byte byte }
    ensures ascii { result < 128 }
{
    match byte {
        32..=126 => byte,
        _ => b'?',
    }
}

/// The bytes as they are shown.
fn shown_bytes(alloc: Global, bytes: &[u8]) -> Result<String, MemoryWant>
    ensures ok { IfOk result (λ text. string_bytes text ≡ map shown_byte bytes.now) }
{
    let mut text = String::new(alloc);
    for byte in bytes {
        text.push(char::from(shown_byte(*byte)))?;
    }
    Ok(text)
}

/// The word as it is shown: its first 60 bytes, with a question mark for each that isn't printed.
#[tactic(auto, unfolding(crate::specs::Lines::shown))]
fn shown(alloc: Global, word: &str) -> Result<String, MemoryWant>
    ensures ok { IfOk result (λ text. string_bytes text ≡ shown word.now) }
{
    let bytes = word.as_bytes();
    shown_bytes(alloc, &bytes[..bytes.len().min(60)])
}

/// What is wrong with an option's value.
fn bad_value(alloc: Global, option: OptionName, value: &str) -> Result<String, MemoryWant>
    ensures ok { IfOk result (λ text.
        string_bytes text ≡ complaint_text (complaint.BadValue option value.now)) }
{
    let name = option.text();
    let wanted = option.wanted().text(alloc)?;
    let value = shown(alloc, value)?;
    Ok(format!(in alloc; "{name} wants {wanted}, not '{value}'")?)
}

/// What is wrong with an option that has no value.
fn no_value(alloc: Global, option: OptionName) -> Result<String, MemoryWant>
    ensures ok { IfOk result (λ text.
        string_bytes text ≡ complaint_text (complaint.NoValue option)) }
{
    let name = option.text();
    let wanted = option.wanted().text(alloc)?;
    Ok(format!(in alloc; "{name} wants {wanted}")?)
}

/// What is wrong, in words.
fn complaint_text(alloc: Global, complaint: &Complaint) -> Result<String, MemoryWant>
    ensures ok { IfOk result (λ text. string_bytes text ≡ complaint_text complaint.now) }
{
    match complaint {
        Complaint::NoOption { name } => {
            let name = shown(alloc, name.items())?;
            Ok(format!(in alloc; "there is no option {name}")?)
        }
        Complaint::Twice { option } => {
            let name = option.text();
            Ok(format!(in alloc; "{name} stands twice")?)
        }
        Complaint::NoValue { option } => no_value(alloc, *option),
        Complaint::BadValue { option, value } => bad_value(alloc, *option, value.items()),
        Complaint::NoNumber { word } => {
            let word = shown(alloc, word.items())?;
            Ok(format!(in alloc; "N wants a number from 1 to {LOADS}, not '{word}'")?)
        }
        Complaint::NoPort { word } => {
            let word = shown(alloc, word.items())?;
            Ok(format!(in alloc;
                "'{word}' is no port: a port is IN:OUT, two files' names with one colon between"
            )?)
        }
        Complaint::Extra { word } => {
            let word = shown(alloc, word.items())?;
            Ok(format!(in alloc; "'{word}' is a word too many")?)
        }
        Complaint::Missing { place } => {
            let name = place.text();
            Ok(format!(in alloc; "{name} is missing")?)
        }
    }
}

/// What is wrong, in a line, where something is.
fn complaint_line(alloc: Global, complaint: &Option<Complaint>) -> Result<String, MemoryWant>
    ensures ok { IfOk result (λ text. string_bytes text ≡ complaint_line complaint.now) }
{
    match complaint {
        Some(complaint) => {
            let text = complaint_text(alloc, complaint)?;
            Ok(format!(in alloc; "  {text}\n")?)
        }
        None => Ok(String::new(alloc)),
    }
}

/// The line of a first word that names no command.
fn unknown_line(alloc: Global, first: &str) -> Result<String, MemoryWant>
    ensures ok { IfOk result (λ text. string_bytes text ≡ unknown_line first.now) }
{
    let first = shown(alloc, first)?;
    Ok(format!(in alloc; "  there is no command '{first}'\n")?)
}

/// That line, and the commands.
fn unknown_lines(alloc: Global, first: &str) -> Result<String, MemoryWant>
    ensures ok { IfOk result (λ text. string_bytes text ≡ unknown_lines first.now) }
{
    let mut text = unknown_line(alloc, first)?;
    text.push_str(COMMANDS)?;
    Ok(text)
}

/// The commands, and where to read on.
const COMMANDS: &str = "  the commands are run, alone, list, load, audit and try
  rescue --help tells more
";

/// The lines on the words of a command.
fn command_lines(alloc: Global, kind: CommandKind, words: &[String]) -> Result<String, MemoryWant>
    ensures ok { IfOk result (λ text. string_bytes text ≡ command_lines kind (texts words.now)) }
{
    let complaint = complaint(alloc, kind, words)?;
    let mut text = complaint_line(alloc, &complaint)?;
    text.push_str(kind.usage())?;
    Ok(text)
}

/// The lines on words that are refused.
pub fn lines(alloc: Global, words: &[String]) -> Result<String, MemoryWant>
    ensures ok { IfOk result (λ text. string_bytes text ≡ lines_of (texts words.now)) }
{
    let Some((first, rest)) = words.split_first() else {
        let mut text = String::from_str(alloc, "  a command is missing\n")?;
        text.push_str(COMMANDS)?;
        return Ok(text);
    };
    match CommandKind::named(first.as_str()) {
        Some(kind) => command_lines(alloc, kind, rest),
        None => unknown_lines(alloc, first.as_str()),
    }
}
