ghost use Rattle.std.specs.Prelude.{◌≡◌, IfOk};
ghost use Rattle.program_words.specs.Words.{texts};
ghost use Rattle.word_complaints.specs.Lines.{explanation_of};

use crate::lines::lines;
use guest_words::{Bytes, MemoryWant};
use program_words::{WordsFault, read_words};
use std::alloc::Global;

/// Why the words are refused: lines to stand behind that of the refusal, each with two spaces before
/// it and a line feed behind it.
///
/// The first is the first thing that is wrong, from the left, and behind it stands how the command
/// is called; without a command, the commands. Of a word at most 60 bytes are shown, and those that
/// aren't printed ASCII as question marks. The text is empty where the words break no rule. Only
/// memory can be wanting.
pub fn explanation(alloc: Global, words: &[String]) -> Result<Bytes, MemoryWant>
    ensures ok { IfOk result (λ text. text ≡ explanation_of (texts words.now)) }
{
    match read_words(alloc, words) {
        Ok(_) => Ok(Bytes::of(Vec::new(alloc))),
        Err(WordsFault::Words(_)) => Ok(Bytes::of(lines(alloc, words)?.into_bytes())),
        Err(WordsFault::Memory) => Err(MemoryWant),
    }
}
