ghost use Rattle.std.specs.Prelude.{◌≡◌, ◌↔◌, IfOk, IsErrOf, IsTrue, Ok, Some, codes, slice_get};
ghost use Rattle.clap.specs.Words.{found_of, rows_of};
ghost use Rattle.program_words.specs.Fits.{Fit};
ghost use Rattle.program_words.specs.Ranges.{IsInRange};
ghost use Rattle.program_words.specs.Words.{command_of, first_kind, first_word_fault, is_told_out, ports_of, reading_of, report_file_of, texts};
ghost use Rattle.program_words.specs.declared.word_fault.WordFault.{WordFault};

use crate::command::Command;
use crate::command_kind::CommandKind;
use crate::from_matches::{command, opened_ports};
use crate::parse::parse;
use crate::port_name::PortNames;
use crate::values::{bad_port, option_of};
use crate::word_fault::WordFault;
use crate::words_fault::WordsFault;
use clap::ArgMatches;
use guest_words::Name;
use std::alloc::Global;

/// What the first word asks for, and what `clap` finds in the words behind it.
fn read(alloc: Global, words: &[String]) -> Result<(CommandKind, ArgMatches<'_>), WordsFault>
    ensures ok { IfOk result (λ r. reading_of (texts words.entry.now)
        ≡ Ok (r.0, rows_of (found_of r.1))) }
    ensures fits { IfOk result (λ r. Fit r.0 (rows_of (found_of r.1))) }
    ensures cause { (fault : WordFault) → IsErrOf result (WordsFault.Words fault)
        → first_word_fault (texts words.entry.now) ≡ Some fault }
{
    let Some((first, rest)) = words.split_first() else {
        return Err(WordFault::NoCommand.into());
    };
    let Some(kind) = CommandKind::named(first.as_str()) else {
        return Err(WordFault::UnknownCommand.into());
    };
    let matches = parse(alloc, kind, rest)?;
    match bad_port(&matches) {
        Some(index) => Err(WordsFault::Words(WordFault::Port {
            index: index as u64,
        })),
        None => Ok((kind, matches)),
    }
}

/// What the words of a command line ask for. They don't include the program's name.
///
/// The first word is the command: `run`, `alone`, `list`, `load`, `audit`, `try`, `--help` (also
/// `-h` and `help`) or `--version`. Those behind it are read by `clap` as one simple command
/// without help and version flags:
///
/// - `run` takes the options `--points FILE`, `--harts N` from 1 to 64, 8 where it isn't given,
///   `--budget N` from 1 to 20,000,000 steps, 5,000,000 where it isn't given, `--save FILE` and
///   `--report FILE`; then PROGRAM and any number of port words IN:OUT.
/// - `alone` takes those and `--seed N`, 0 where it isn't given.
/// - `list` takes PROGRAM, and `load` a number from 1 to 1,000.
/// - `audit` takes `--points FILE` and `--report FILE`, then HISTORY, PROGRAM, INPUT, OUT and ERR, and any number of
///   port words.
/// - `try` takes `--harts`, `--budget`, `--seed` and `--report` as `alone` does, and `--returns N`, an `i64`,
///   -1 where it isn't given; then PROGRAM and INPUT. A negative number is written `--returns=-2`,
///   since no word that begins with a hyphen is a value.
/// - Behind `--help` and `--version` any words may stand; they say nothing.
///
/// The rules are those of [`WordFault`](crate::WordFault), in their order; want of memory is the
/// one other error.
pub fn read_words(alloc: Global, words: &[String]) -> Result<Command, WordsFault>
    ensures ok { IfOk result (λ c. command_of (texts words.now) ≡ Ok c) }
    ensures range { IfOk result IsInRange }

    // A rule is named only where it is the first one that is broken.
    ensures cause { (fault : WordFault) → IsErrOf result (WordsFault.Words fault)
        → first_word_fault (texts words.now) ≡ Some fault }
{
    let (kind, matches) = read(alloc, words)?;
    Ok(command(alloc, kind, &matches)?)
}

/// The files of the ports that the command opens, in the order of the words: those of `run` and
/// `alone`. An `audit` opens none, since it reads the files of its ports whole, and no other
/// command has ports. The rules are those of [`read_words`].
pub fn port_names(alloc: Global, words: &[String]) -> Result<PortNames, WordsFault>
    ensures ok { IfOk result (λ names. ports_of (texts words.now) ≡ Ok names) }

    // A rule is named only where it is the first one that is broken.
    ensures cause { (fault : WordFault) → IsErrOf result (WordsFault.Words fault)
        → first_word_fault (texts words.now) ≡ Some fault }
{
    let (kind, matches) = read(alloc, words)?;
    Ok(opened_ports(alloc, kind, &matches)?)
}

/// The file of `--report`, where the words name one. The rules are those of [`read_words`].
pub fn report_file(alloc: Global, words: &[String]) -> Result<Option<Name>, WordsFault>
    ensures ok { IfOk result (λ file. report_file_of (texts words.now) ≡ Ok file) }

    // A rule is named only where it is the first one that is broken.
    ensures cause { (fault : WordFault) → IsErrOf result (WordsFault.Words fault)
        → first_word_fault (texts words.now) ≡ Some fault }
{
    let (_kind, matches) = read(alloc, words)?;
    Ok(option_of(alloc, &matches, "report")?)
}

/// The command that the first word names.
fn first_kind(words: &[String]) -> Option<CommandKind>
    ensures value { result ≡ first_kind (texts words.now) }
{
    CommandKind::named(words.first()?.as_str())
}

/// Whether the first word is the name.
fn is_command(words: &[String], name: &str) -> bool
    ensures value { IsTrue result ↔ (slice_get (texts words.now) 0 ≡ Some name.now) }
{
    match words.first() {
        Some(first) => first.as_str() == name,
        None => false,
    }
}

/// Whether the command is run on threads. Takes no memory.
pub fn needs_threads(words: &[String]) -> bool
    ensures value { IsTrue result ↔ (slice_get (texts words.now) 0 ≡ Some (codes "run")) }
{
    is_command(words, "run")
}

/// Whether what the command tells goes to the standard output, and not to the standard error: that
/// of every command but `run` and `alone`. Takes no memory.
pub fn report_to_out(words: &[String]) -> bool
    ensures value { result ≡ is_told_out (texts words.now) }
{
    match first_kind(words) {
        Some(kind) => kind.tells_out(),
        None => false,
    }
}
