ghost use Rattle.std.specs.Prelude.{◌≡◌, IfOk, IsErrOf, OnOk, true, false};
ghost use Rattle.clap.specs.Words.{found_of, kind_of, rows_of};
ghost use Rattle.program_words.specs.Fits.{Fit};
ghost use Rattle.program_words.specs.Refusal.{refusal_of};
ghost use Rattle.program_words.specs.Words.{is_taken, rows_in, texts};
ghost use Rattle.program_words.specs.declared.word_fault.WordFault.{WordFault};

use crate::command_kind::CommandKind;
use crate::table::simple_command;
use crate::word_fault::WordFault;
use crate::words_fault::WordsFault;
use clap::error::ErrorKind;
use clap::{ArgMatches, Error};
use std::alloc::Global;

/// Why `clap` gave no matches.
fn refusal(error: &Error) -> WordsFault
    ensures value { result ≡ refusal_of (kind_of error.now) }
{
    match error.kind() {
        ErrorKind::OutOfMemory => WordsFault::Memory,
        _ => WordsFault::Words(WordFault::Line),
    }
}

/// What `clap` finds in the words behind the command's name.
pub fn parse<'a>(
    alloc: Global,
    kind: CommandKind,
    words: &'a [String],
) -> Result<ArgMatches<'a>, WordsFault>
    ensures taken { OnOk result (is_taken kind (texts words.entry.now) ≡ true) }
    ensures rows { IfOk result (λ m. rows_of (found_of m) ≡ rows_in kind (texts words.entry.now)) }
    ensures fits { OnOk result (Fit kind (rows_in kind (texts words.entry.now))) }
    ensures line { (fault : WordFault) → IsErrOf result (WordsFault.Words fault)
        → fault ≡ WordFault.Line }
    ensures refuses { (fault : WordFault) → IsErrOf result (WordsFault.Words fault)
        → is_taken kind (texts words.entry.now) ≡ false }
{
    let command = simple_command(alloc, kind)?;
    match command.try_get_matches_from(words) {
        Ok(matches) => Ok(matches),
        Err(error) => Err(refusal(&error)),
    }
}
