ghost use Rattle.std.specs.Prelude.{◌≡◌, ◌+◌, ◌≤◌, ◌++◌, [], ◌∷◌, length, IfOk};
ghost use Rattle.run_history.specs.declared.entry.Entry.{Entered};
ghost use Rattle.open_calls.specs.Rooms.{IsFresh};

use guest_words::{MemoryWant, PointRef};
use run_history::{Entry, History};
use std::alloc::Global;

/// So many entries have room in a new list, beside the entering of a further call.
pub const ENTRIES: usize = 7;

/// No entry. Takes no memory.
pub fn empty(alloc: Global) -> History
    ensures none { result.entries ≡ [] }
{
    History::of(Vec::new(alloc))
}

/// Makes room for some entries in a list that has none. Takes memory only where it lacks room.
pub fn fresh(mut list: History) -> Result<History, MemoryWant>
    requires none { list.entries ≡ [] }
    ensures ok { IfOk result (λ list. IsFresh list) }
{
    list.reserve(ENTRIES + 1)?;
    Ok(list)
}

/// The entries of a call that closes go behind these, and behind the entering of the call.
pub fn join(outer: &mut History, inner: &mut History, hart: u8, point: PointRef)
    requires room { length inner.old.entries + 1 ≤ outer.old.spare }
    ensures entries { outer.new.entries
        ≡ outer.old.entries ++ Entered hart point ∷ inner.old.entries }
    ensures room { outer.old.spare ≤ outer.new.spare + (length inner.old.entries + 1) }
    ensures none { inner.new.entries ≡ [] }
{
    outer.push(Entry::Entered { hart, point });
    inner.join_onto(outer);
}

/// Keeps a list without entries for its room, where it is worth that.
pub fn keep_where(free: &mut History, list: History, is_short: bool)
    requires none { list.entries ≡ [] }
    requires empty { free.old.entries ≡ [] }
    ensures none { free.new.entries ≡ [] }
{
    if is_short {
        *free = list;
    }
}
