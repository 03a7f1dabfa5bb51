ghost use Rattle.std.specs.Prelude.{length};
ghost use Rattle.std.specs.Prelude.{◌≡◌, ◌≤◌, ◌<◌, ◌+◌, ◌++◌, [], ◌∷◌, true, false, is_none, IfSome, OnSome};
ghost use Rattle.guest_words.specs.HartAct.{hart_act};
ghost use Rattle.guest_memory.specs.Noting.{Notes};
ghost use Rattle.hart_step.specs.InARow.{after_act, closes, is_next, lone, IsRow};
ghost use Rattle.hart_step.specs.InPlace.{did_of, HasZero};
ghost use Rattle.hart_step.specs.Table.{IsTable};

use crate::before::Before;
use crate::did::Did;
use crate::known::Known;
use crate::step::step;
use guest_memory::Memory;
use guest_pages::Recent;
use guest_words::{Frame, Hart, Points};
use point_frames::is_over;
use undo_log::{Log, Note};

/// How far a hart came.
#[derive(Clone, Copy, Debug, PartialEq, Eq)]
pub struct Ran {
    /// So many acts carried out an instruction.
    pub count: u32,
    /// Whether the last of them closes the top frame.
    pub closed: bool,
    /// What the hart does next, where that carries out no instruction; else `Went`.
    pub did: Did,
}

/// Acts of a hart with so many frames open, at most so many, as long as each carries out an
/// instruction and the top frame, if one is handed in, stays open. Where `noted`, the log gets a
/// note of each store, and has room for them.
#[inline(never)]
pub fn run(
    hart: &mut Hart,
    memory: &mut Memory,
    recent: &mut Recent,
    log: &mut Log,
    points: &Points,
    frames: usize,
    top: &Option<Frame>,
    table: &mut [Known],
    most: u32,
    noted: bool,
) -> Ran
    requires table { IsTable memory.old.space points.now table.old }
    requires zero { HasZero hart.old }
    requires room { noted ≡ true → most ≤ log.old.spare }
    ensures within { result.count ≤ most }
    ensures row { IsRow points.now frames top.now (lone hart.old memory.old)
        (lone hart.new memory.new) result.count result.closed }
    ensures notes { Notes noted log.old.notes log.new.notes memory.old memory.new }
    ensures stops { result.closed ≡ false → result.count < most
        → result.did ≡ did_of (hart_act memory.new.space points.now frames hart.new) }
    ensures few { length log.new.notes ≤ length log.old.notes + result.count }
    ensures spare { log.old.spare ≤ log.new.spare + result.count }
    ensures table { IsTable memory.new.space points.now table.new }
    ensures zero { HasZero hart.new }
{
    let top = *top;
    let mut before = Before::new();
    for count in 0..most {
        if let Some(did) = go(
            hart,
            memory,
            recent,
            &mut before,
            log,
            points,
            frames,
            table,
            noted,
        ) {
            return Ran {
                count,
                closed: false,
                did,
            };
        }
        if is_closed(hart, &top) {
            return Ran {
                count: count + 1,
                closed: true,
                did: Did::Went,
            };
        }
    }
    Ran {
        count: most,
        closed: false,
        did: Did::Went,
    }
}

/// One act, and the note of its store where `noted`; what the hart did, if it carried out no
/// instruction.
#[inline(always)]
fn go(
    hart: &mut Hart,
    memory: &mut Memory,
    recent: &mut Recent,
    before: &mut Before,
    log: &mut Log,
    points: &Points,
    frames: usize,
    table: &mut [Known],
    noted: bool,
) -> Option<Did>
    requires table { IsTable memory.old.space points.now table.old }
    requires zero { HasZero hart.old }
    requires room { noted ≡ true → 0 < log.old.spare }
    ensures goes { is_none result ≡ is_next (hart_act memory.old.space points.now frames hart.old) }
    ensures stop { IfSome result
        (λ did. did ≡ did_of (hart_act memory.old.space points.now frames hart.old)) }
    ensures after { lone hart.new memory.new
        ≡ after_act (hart_act memory.old.space points.now frames hart.old)
        (lone hart.old memory.old) }
    ensures notes { Notes noted log.old.notes log.new.notes memory.old memory.new }
    ensures table { IsTable memory.new.space points.now table.new }
    ensures zero { HasZero hart.new }
    ensures few { length log.new.notes ≤ length log.old.notes + 1 }
    ensures spare { log.old.spare ≤ log.new.spare + 1 }
    ensures kept { OnSome result (log.new ≡ log.old) }
{
    match step(hart, memory, recent, before, points, frames, table) {
        Did::Went => None,
        Did::Stored => {
            if noted {
                note(log, before);
            }
            None
        }
        did => Some(did),
    }
}

#[inline(always)]
fn note(log: &mut Log, before: &Before)
    requires room { 0 < log.old.spare }
    ensures notes { log.new.notes ≡ log.old.notes
        ++ Note.Bytes before.now.address before.now.width before.now.number ∷ [] }
    ensures few { length log.new.notes ≤ length log.old.notes + 1 }
    ensures room { log.new.spare + 1 ≡ log.old.spare }
{
    log.note_stored(before.address, before.width, before.number);
}

#[inline(always)]
fn is_closed(hart: &Hart, top: &Option<Frame>) -> bool
    ensures value { result ≡ closes top.now hart.now }
{
    match top {
        None => false,
        Some(top) => is_over(hart, top),
    }
}
