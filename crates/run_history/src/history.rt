ghost use Rattle.std.specs.Prelude.{◌≡◌, ◌+◌, ◌<◌, ◌≤◌, [], ◌∷◌, ◌++◌, length, IsTrue, OnOk};
ghost use Rattle.run_history.specs.LastEntry.{can_lengthen, longer, ends_in_ran, lengthened};
ghost use Rattle.run_history.specs.LastEntry.{can_lengthen_by, longer_by, ends_in_ran_of};
ghost use Rattle.run_history.specs.LastEntry.{lengthened_by, with_acts};

use crate::entry::Entry;
use guest_words::MemoryWant;
use sqlite_items::Items;
use std::marker::Model;

/// What has happened in a run, the oldest entry first, with room for more.
#[derive(Drop)]
pub struct History {
    entries: Vec<Entry>,
}

impl Model for History {
    ghost use Rattle.std.specs.Prelude.{◌-◌, vec_len, vec_capacity};
    ghost use Rattle.run_history.specs.HistoryView.{HistoryView};
    ghost use Rattle.std.specs.Coded.{codes};
    ghost use Rattle.run_history.specs.contracts.entry.Entry as e;

    ghost Value = { HistoryView };

    ghost coded = { Prim.hlevel (codes, e.the_row.coded) };

    ghost view = { λ h. record {
      entries = h.entries.items;
      spare = vec_capacity h.entries - vec_len h.entries;
    } };
}

impl History {
    /// The history of the entries of the `Vec`, which is kept as it is.
    pub fn of(entries: Vec<Entry>) -> History
        ensures list { result.entries ≡ entries.items }
    {
        History { entries }
    }

    /// The entries, the oldest first.
    pub fn items(&self) -> &[Entry]
        ensures list { result.now ≡ self.now.entries }
    {
        self.entries.as_slice()
    }

    /// Makes room for so many further entries.
    pub fn reserve(&mut self, entries: usize) -> Result<(), MemoryWant>
        ensures same { self.new.entries ≡ self.old.entries }
        ensures ok { OnOk result (entries ≤ self.new.spare) }
        ensures room { self.old.spare ≤ self.new.spare }
    {
        self.entries.reserve(entries)?;
        Ok(())
    }

    /// Puts an entry last.
    pub fn push(&mut self, entry: Entry)
        requires room { 0 < self.old.spare }
        ensures entries { self.new.entries ≡ self.old.entries ++ entry ∷ [] }
        ensures room { self.new.spare + 1 ≡ self.old.spare }
    {
        self.entries.push_reserved(entry)
    }

    /// Makes the count of the last entry one more.
    pub fn lengthen(&mut self)
        requires last { IsTrue (ends_in_ran self.old.entries) }
        ensures entries { self.new.entries ≡ lengthened self.old.entries }
        ensures room { self.new.spare ≡ self.old.spare }
    {
        match self.entries.pop() {
            Some(last) => self.entries.push_reserved(longer(last)),
            None => {}
        }
    }

    /// Puts so many acts of a hart last: the last entry is made longer where it can be.
    pub fn put_acts(&mut self, hart: u8, count: u32)
        requires some { 1 ≤ count }
        requires room { 0 < self.old.spare }
        ensures entries { self.new.entries ≡ with_acts hart count self.old.entries }
        ensures room { self.old.spare ≤ self.new.spare + 1 }
    {
        if ends_in_ran_of(self.items(), hart, count) {
            self.lengthen_by(hart, count);
        } else {
            self.push(Entry::Ran { hart, count });
        }
    }

    fn lengthen_by(&mut self, hart: u8, count: u32)
        requires last { IsTrue (ends_in_ran_of hart count self.old.entries) }
        ensures entries { self.new.entries ≡ lengthened_by count self.old.entries }
        ensures room { self.new.spare ≡ self.old.spare }
    {
        match self.entries.pop() {
            Some(last) => self.entries.push_reserved(longer_by(last, hart, count)),
            None => {}
        }
    }

    /// Puts these entries behind those of another history. What they leave is room.
    pub fn join_onto(&mut self, outer: &mut History)
        requires room { length self.old.entries ≤ outer.old.spare }
        ensures entries { outer.new.entries ≡ outer.old.entries ++ self.old.entries }
        ensures room { outer.old.spare ≤ outer.new.spare + length self.old.entries }
        ensures none { self.new.entries ≡ [] }
        ensures own { self.new.spare ≡ self.old.spare + length self.old.entries }
    {
        match outer.entries.append(&mut self.entries) {
            Ok(()) => {}
            Err(_) => unreachable!(),
        }
    }

    /// The entries, as the inside of a rescued call.
    pub fn into_inside(self) -> Items<Entry>
        ensures list { result ≡ self.entries }
    {
        Items::from_vec(self.entries)
    }
}

fn longer(entry: Entry) -> Entry
    requires ran { IsTrue (can_lengthen entry) }
    ensures value { result ≡ longer entry }
{
    match entry {
        Entry::Ran { hart, count } => Entry::Ran {
            hart,
            count: count + 1,
        },
        other => other,
    }
}

fn longer_by(entry: Entry, hart: u8, more: u32) -> Entry
    requires ran { IsTrue (can_lengthen_by hart more entry) }
    ensures value { result ≡ longer_by more entry }
{
    match entry {
        Entry::Ran { hart, count } => Entry::Ran {
            hart,
            count: count + more,
        },
        other => other,
    }
}

fn ends_in_ran_of(entries: &[Entry], hart: u8, more: u32) -> bool
    ensures value { result ≡ ends_in_ran_of hart more entries.now }
{
    match entries.last() {
        Some(last) => can_lengthen_by(last, hart, more),
        None => false,
    }
}

fn can_lengthen_by(entry: &Entry, hart: u8, more: u32) -> bool
    ensures value { result ≡ can_lengthen_by hart more entry.now }
{
    match entry {
        Entry::Ran { hart: other, count } => *other == hart && *count <= u32::MAX - more,
        Entry::Entered { .. } => false,
        Entry::Called { .. } => false,
        Entry::Rescued { .. } => false,
        Entry::Ended { .. } => false,
    }
}
