//! The lines behind that of a refusal: what was wrong, and what would be right.
ghost use Rattle.std.specs.Prelude.{◌≡◌, [], IfOk, string_bytes, unwrap_or};
ghost use Rattle.config_hints.specs.Shown.{quoted};
ghost use Rattle.program_words.specs.Words.{texts};
ghost use Rattle.rescue_run.specs.Hints.{hint_of, long_hint, refusal_text, sizes_text, unread_hint};
ghost use Rattle.rescue_run.specs.Names.{name_for};

use crate::lines::line;
use crate::names::name_of;
use crate::outcome::{Outcome, Which};
use crate::refusal::Refusal;
use crate::shown::quoted;
use edge_ports::Reason;
use elf_hints::{elf_hint, sym_hint};
use guest_words::{Bytes, MemoryWant};
use program_words::{WordsFault, read_words};
use std::alloc::Global;
use word_complaints::explanation;

/// The name in quotes that the words give a file.
fn shown_name(alloc: Global, words: &[String], which: Which) -> Result<String, MemoryWant>
    ensures ok { IfOk result
        (λ text. string_bytes text ≡ quoted (name_for (texts words.now) which)) }
{
    match read_words(alloc, words) {
        Ok(command) => quoted(alloc, name_of(&command, which)),
        Err(WordsFault::Words(_)) => quoted(alloc, ""),
        Err(WordsFault::Memory) => Err(MemoryWant),
    }
}

/// Why a file wasn't read.
fn unread_hint(
    alloc: Global,
    words: &[String],
    which: Which,
    reason: Reason,
) -> Result<String, MemoryWant>
    ensures ok { IfOk result (λ text.
        string_bytes text ≡ unread_hint (name_for (texts words.now) which) reason) }
{
    let name = shown_name(alloc, words, which)?;
    let why = reason.text();
    Ok(format!(in alloc; "  {name}: {why}\n")?)
}

/// How long a file is, and how long one may be.
fn sizes_text(alloc: Global, length: u64, limit: u64) -> Result<String, MemoryWant>
    ensures ok { IfOk result (λ text. string_bytes text ≡ sizes_text length limit) }
{
    Ok(format!(in alloc; "{length} bytes, and at most {limit} are read")?)
}

/// That a file is too long.
fn long_hint(
    alloc: Global,
    words: &[String],
    which: Which,
    length: u64,
    limit: u64,
) -> Result<String, MemoryWant>
    ensures ok { IfOk result (λ text.
        string_bytes text ≡ long_hint (name_for (texts words.now) which) length limit) }
{
    let name = shown_name(alloc, words, which)?;
    let sizes = sizes_text(alloc, length, limit)?;
    Ok(format!(in alloc; "  {name} has {sizes}\n")?)
}

/// A copy of lines, empty where there are none.
fn copy_of(alloc: Global, lines: &Option<Bytes>) -> Result<Bytes, MemoryWant>
    ensures ok { IfOk result (λ text. text ≡ unwrap_or lines.now []) }
{
    match lines {
        Some(lines) => lines.copy(alloc),
        None => Ok(Bytes::of(Vec::new(alloc))),
    }
}

/// The lines behind that of a refusal of these words.
fn hint(alloc: Global, words: &[String], refusal: &Refusal) -> Result<Bytes, MemoryWant>
    ensures ok { IfOk result (λ text.
        text ≡ hint_of (texts words.now) refusal.now.lines refusal.now.outcome) }
{
    let text = match refusal.outcome {
        Outcome::Words(_) => return explanation(alloc, words),
        Outcome::Points { .. } => return copy_of(alloc, &refusal.lines),
        Outcome::Shelf { which, reason } => unread_hint(alloc, words, which, reason)?,
        Outcome::TooLong { which, length } => long_hint(
            alloc,
            words,
            which,
            length,
            which.limit(),
        )?,
        Outcome::Elf { fault, .. } => String::from_str(alloc, elf_hint(fault))?,
        Outcome::Symbols { fault, .. } => String::from_str(alloc, sym_hint(fault))?,
        Outcome::PortCount { .. }
        | Outcome::Report { .. }
        | Outcome::Save { .. }
        | Outcome::Ended(_)
        | Outcome::Listed
        | Outcome::Audited
        | Outcome::AuditNo(_)
        | Outcome::Tried { .. }
        | Outcome::NoFault(_)
        | Outcome::Shown
        | Outcome::Memory => String::new(alloc),
    };
    Ok(Bytes::of(text.into_bytes()))
}

/// The text of a refusal of these words: its line, and the lines that explain it.
pub fn refusal_text(alloc: Global, words: &[String], refusal: &Refusal) -> Result<Bytes, MemoryWant>
    ensures ok { IfOk result (λ text.
        text ≡ refusal_text (texts words.now) refusal.now.lines refusal.now.outcome) }
{
    let mut text = line(alloc, &refusal.outcome)?.into_bytes();
    let hint = hint(alloc, words, refusal)?;
    text.extend_from_slice(hint.items())?;
    Ok(Bytes::of(text))
}
