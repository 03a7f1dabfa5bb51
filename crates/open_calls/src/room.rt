ghost use Rattle.std.specs.Prelude.{◌≡◌, ◌+◌, ◌≤◌, length, OnOk, IfOk};
ghost use Rattle.open_calls.specs.Rooms.{turned, AreRoomier, HasRoom, IsRoomier, IsWider};

use crate::outer::Outer;
use guest_words::MemoryWant;
use run_history::History;

/// No list is as long: it would not fit into memory.
const MOST: u64 = 1 << 40;

/// Makes room for so many entries, with a place more for an entering or an ending, and answers how
/// many the list then has in all: they need room around it. After an Err there may be more room.
pub fn make_in(list: &mut History, entries: usize) -> Result<usize, MemoryWant>
    ensures same { IsWider list.old list.new }
    ensures entries { OnOk result (entries + 1 ≤ list.new.spare) }
    ensures around { IfOk result (λ all. all ≡ entries + 1 + length list.new.entries) }
{
    let inside = list.items().len();
    if inside as u64 > MOST || entries as u64 > MOST {
        return Err(MemoryWant);
    }
    list.reserve(entries + 1)?;
    Ok(entries + 1 + inside)
}

// The same in what encloses a call.
fn make_around(outer: &mut Outer, entries: usize) -> Result<usize, MemoryWant>
    ensures same { IsRoomier outer.old outer.new }
    ensures entries { OnOk result (entries + 1 ≤ outer.new.entries.spare) }
    ensures around { IfOk result (λ all. all ≡ entries + 1 + length outer.new.entries.entries) }
{
    make_in(&mut outer.entries, entries)
}

/// Makes room at each level for what may come out of the calls inside it.
pub fn refill(outers: &mut [Outer], entries: usize) -> Result<(), MemoryWant>
    ensures roomier { AreRoomier (turned outers.old) (turned outers.new) }
    ensures room { OnOk result (HasRoom entries (turned outers.new)) }
{
    match outers.split_last_mut() {
        None => Ok(()),
        Some((outer, further)) => {
            let around = make_around(outer, entries)?;
            refill(further, around)
        }
    }
}
