ghost use Rattle.std.specs.Prelude.{◌≡◌, ◌+◌, ◌-◌, ◌<◌, ◌≤◌, [], ◌∷◌, ◌++◌, drop, length, take, vec_capacity};
ghost use Rattle.std.specs.Prelude.{IsOk, OnOk, OnErr};
ghost use Rattle.undo_log.specs.Undo.{undone, gone_in};

use crate::note::Note;
use crate::restore::Restore;
use guest_words::{MemoryWant, Page, Width};
use std::alloc::Global;
use std::marker::Model;

/// Notes, the oldest first, with room for more.
#[derive(Drop)]
pub struct Log {
    pub(crate) notes: Vec<Note>,
}

impl Model for Log {
    ghost use Rattle.std.specs.Prelude.{◌-◌, vec_len, vec_capacity};
    ghost use Rattle.undo_log.specs.Noted.{Noted};

    ghost Value = { Noted };

    ghost view = { λ l. record {
      notes = l.notes.items;
      spare = vec_capacity l.notes - vec_len l.notes;
    } };
}

impl Log {
    /// An empty log. Takes no memory.
    pub fn new(alloc: Global) -> Log
        ensures none { result.notes ≡ [] }
    {
        Log {
            notes: Vec::new(alloc),
        }
    }

    /// Notes the low bytes of `old`, which stand at an address. With room it isn't refused, and
    /// uses one place.
    pub fn note_bytes(&mut self, address: u64, width: Width, old: u64) -> Result<(), MemoryWant>
        ensures ok { OnOk result
            (self.new.notes ≡ self.old.notes ++ Note.Bytes address width old ∷ []) }
        ensures err { OnErr result (self.new.notes ≡ self.old.notes) }
        ensures sure { 0 < self.old.spare → IsOk result }
        ensures room { 0 < self.old.spare → self.new.spare + 1 ≡ self.old.spare }
    {
        let note = Note::Bytes {
            address,
            width,
            old,
        };
        if self.notes.len() < self.notes.capacity() {
            self.notes.push_reserved(note);
        } else {
            self.notes.push(note)?;
        }
        Ok(())
    }

    /// The same where there is room. Takes no memory.
    #[inline]
    pub fn note_stored(&mut self, address: u64, width: Width, old: u64)
        requires room { 0 < self.old.spare }
        ensures value { self.new ≡ record {
          notes = self.old.notes ++ Note.Bytes address width old ∷ [];
          spare = self.old.spare - 1;
        } }
    {
        self.notes.push_reserved(Note::Bytes {
            address,
            width,
            old,
        });
    }

    /// Notes that so many pages from an address on were made. Takes no memory.
    pub fn note_made(&mut self, from: u64, count: u64)
        requires room { 0 < self.old.spare }
        ensures value { self.new ≡ record {
          notes = self.old.notes ++ Note.Made from count ∷ [];
          spare = self.old.spare - 1;
        } }
    {
        self.notes.push_reserved(Note::Made { from, count });
    }

    /// Notes that a page is gone. Takes no memory.
    pub fn note_gone(&mut self, page: Page)
        requires room { 0 < self.old.spare }
        ensures value { self.new ≡ record {
          notes = self.old.notes ++ Note.Gone page ∷ [];
          spare = self.old.spare - 1;
        } }
    {
        self.notes.push_reserved(Note::Gone(page));
    }

    /// Notes that the break was at an address. Takes no memory.
    pub fn note_break(&mut self, old: u64)
        requires room { 0 < self.old.spare }
        ensures value { self.new ≡ record {
          notes = self.old.notes ++ Note.Break old ∷ [];
          spare = self.old.spare - 1;
        } }
    {
        self.notes.push_reserved(Note::Break(old));
    }

    /// Forgets all notes. Takes no memory.
    pub fn clear(&mut self)
        ensures none { self.new.notes ≡ [] }
        ensures room { self.old.spare ≤ self.new.spare }
    {
        self.notes.clear();
    }

    /// The number of notes.
    pub fn length(&self) -> u64
        ensures value { result ≡ length self.now.notes }
    {
        self.notes.len() as u64
    }

    /// The notes from a position up to another; positions past the end have none.
    pub fn between(&self, from: u64, to: u64) -> &[Note]
        ensures value { result.now ≡ drop from (take to self.now.notes) }
    {
        let to = to.min(self.length());
        let from = from.min(to);
        &self.notes[from as usize..to as usize]
    }

    /// Makes room for so many further notes. Room that is there stays, whatever the answer.
    pub fn reserve(&mut self, notes: u64) -> Result<(), MemoryWant>
        ensures same { self.new.notes ≡ self.old.notes }
        ensures ok { OnOk result (notes ≤ self.new.spare) }
        ensures room { self.old.spare ≤ self.new.spare }
        ensures err { OnErr result (self.new.spare ≡ self.old.spare) }
    {
        self.notes.reserve(notes as usize)?;
        Ok(())
    }

    /// The number of notes more that have room.
    pub fn room(&self) -> u64
        ensures value { result ≡ self.now.spare }
    {
        (self.notes.capacity() - self.notes.len()) as u64
    }

    /// Puts the notes from a position on back, the newest first, and forgets them. Takes no memory.
    pub fn undo_from<U: Restore>(&mut self, from: u64, into: &mut U)
        requires room { gone_in (drop from self.old.notes) ≤ U.spare into.old }
        ensures value { into.new ≡ undone U.put_back (drop from self.old.notes) into.old }
        ensures notes { self.new.notes ≡ take from self.old.notes }
        ensures room { self.old.spare ≤ self.new.spare }
    {
        put_newer(&mut self.notes, from, into);
    }
}

// Puts notes back, the newest first, until so many are left.
fn put_newer<U: Restore>(notes: &mut Vec<Note>, left: u64, into: &mut U)
    requires room { gone_in (drop left notes.old.items) ≤ U.spare into.old }
    ensures value { into.new ≡ undone U.put_back (drop left notes.old.items) into.old }
    ensures notes { notes.new.items ≡ take left notes.old.items }
    ensures capacity { vec_capacity notes.new ≡ vec_capacity notes.old }
{
    while notes.len() as u64 > left {
        match notes.pop() {
            Some(note) => put_note(note, into),
            None => {}
        }
    }
}

// Puts a note back.
fn put_note<U: Restore>(note: Note, into: &mut U)
    requires room { gone_in (note ∷ []) ≤ U.spare into.old }
    ensures value { into.new ≡ U.put_back into.old note }
    ensures room { U.spare into.old ≤ U.spare into.new + gone_in (note ∷ []) }
{
    match note {
        Note::Bytes {
            address,
            width,
            old,
        } => into.put_bytes(address, width, old),
        Note::Made { from, count } => into.drop_pages(from, count),
        Note::Gone(page) => into.put_page(page),
        Note::Break(old) => into.put_break(old),
    }
}
