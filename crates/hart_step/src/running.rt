//! Acts of a hart in a row.
ghost use Rattle.std.specs.Prelude.{◌≡◌, ◌+◌, ◌<◌, ◌≤◌, true, length};
ghost use Rattle.guest_memory.specs.Noting.{Notes};
ghost use Rattle.run_history.specs.After.{ran};
ghost use Rattle.run_history.specs.Legal.{can_run};
ghost use Rattle.hart_step.specs.Live.{space_of};
ghost use Rattle.hart_step.specs.Stops.{IsPlainRow, Stops};

use crate::engine::Engine;
use crate::next_act::Run;
use undo_log::Log;

impl Engine {
    /// Ordinary acts of a hart in a row, at most so many, as many as can be made without memory
    /// before a frame closes; the one that closes a frame is the last. What stopped them is
    /// answered. Where `noted`, the log gets a note of all that is overwritten. Takes no memory.
    pub fn run(&mut self, hart: u8, most: u32, log: &mut Log, noted: bool) -> Run
        requires room { noted ≡ true → most ≤ log.old.spare }
        ensures within { result.count ≤ most }
        ensures legal { can_run self.old.state hart result.count ≡ true }
        ensures after { self.new.state ≡ ran self.old.state hart result.count }
        ensures row { IsPlainRow noted self.old.state hart result.count }
        ensures stops { result.count < most
            → Stops noted self.old.state self.new.state hart result.next }
        ensures notes { Notes noted log.old.notes log.new.notes
            (space_of self.old) (space_of self.new) }
        ensures few { length log.new.notes ≤ length log.old.notes + result.count }
        ensures room { log.old.spare ≤ log.new.spare + result.count }
    {
        let mut count = 0;
        for _ in 0..most {
            if count == most {
                return Run { count, next: None };
            }
            let leg = self.leg(hart, most - count, log, noted);
            count += leg.count;
            if leg.is_last {
                return Run {
                    count,
                    next: leg.next,
                };
            }
        }
        Run { count, next: None }
    }
}
