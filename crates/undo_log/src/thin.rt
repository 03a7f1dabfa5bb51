ghost use Rattle.std.specs.Prelude.{◌≡◌, ◌+◌, ◌≤◌, [], ◌++◌, length, take, drop, IfOk, OnOk, OnErr};
ghost use Rattle.undo_log.specs.Thin.{are_uncovered, marked, uncovered};
ghost use Rattle.undo_log.specs.Undo.{gone_in};

use crate::log::Log;
use crate::note::Note;
use crate::seen::Seen;
use guest_words::MemoryWant;
use std::alloc::Global;

impl Log {
    /// From a position on, takes away each note of bytes that an earlier one of the very same bytes
    /// covers: put back, the earlier one overwrites what the later one put back. Takes memory for
    /// the places that are seen, for as long as it lasts.
    pub fn thin(&mut self, alloc: Global, from: u64) -> Result<(), MemoryWant>
        ensures ok { OnOk result
            (drop from self.new.notes ≡ uncovered [] (drop from self.old.notes)) }
        ensures err { OnErr result (self.new ≡ self.old) }
        ensures older { take from self.new.notes ≡ take from self.old.notes }
        ensures fewer { length self.new.notes ≤ length self.old.notes }
        ensures pages { gone_in self.new.notes ≡ gone_in self.old.notes }
        ensures room { self.new.spare + length self.new.notes
            ≡ self.old.spare + length self.old.notes }
    {
        if self.length() <= from {
            return Ok(());
        }
        let from = from as usize;
        let marks = mark_uncovered(alloc, &self.notes[from..])?;
        self.keep_marked(from, &marks);
        Ok(())
    }

    // Takes away those notes from a position on that aren't marked.
    fn keep_marked(&mut self, from: usize, marks: &[bool])
        requires each { from + length marks.now ≡ length self.old.notes }
        ensures notes { self.new.notes
            ≡ take from self.old.notes ++ marked marks.now (drop from self.old.notes) }
        ensures room { self.new.spare + length self.new.notes
            ≡ self.old.spare + length self.old.notes }
    {
        let mut kept = from;
        for (i, mark) in marks.iter().enumerate() {
            if *mark {
                self.notes.swap(kept, from + i);
                kept += 1;
            }
        }
        self.notes.truncate(kept);
    }
}

// Of each note, whether no earlier one of them covers it.
fn mark_uncovered(alloc: Global, notes: &[Note]) -> Result<Vec<bool>, MemoryWant>
    ensures value { IfOk result (λ marks. marks.items ≡ are_uncovered [] notes.now) }
{
    let mut seen = Seen::new(alloc);
    let mut marks = Vec::with_capacity(alloc, notes.len())?;
    for note in notes {
        marks.push_reserved(!seen.covers(alloc, note)?);
    }
    Ok(marks)
}
