//! Acts of a hart in a row.
ghost use Rattle.std.specs.Prelude.{◌≡◌, ◌≤◌, true, false, IfOk, IsTrue};
ghost use Rattle.guest_words.specs.Endings.{is_budget_spent};
ghost use Rattle.run_history.specs.After.{next, ran};
ghost use Rattle.run_history.specs.Legal.{can_go, can_run, is_ready_at};

use crate::plain::Plain;
use guest_words::MemoryWant;
use hart_step::NextAct;
use std::alloc::Global;
use undo_log::Log;

impl Plain {
    /// Makes so many ordinary acts of a hart, where so many can be made; else the state is of no
    /// use.
    pub(crate) fn can_run(
        &mut self,
        alloc: Global,
        hart: u8,
        count: u32,
    ) -> Result<bool, MemoryWant>
        ensures legal { IfOk result (λ is. is ≡ can_run self.old hart count) }
        ensures after { IfOk result (λ is. IsTrue is → self.new ≡ ran self.old hart count) }
    {
        let mut made = 0;
        while made < count {
            made += self.run(alloc, hart, count - made);
            if made < count {
                // What stopped them may be an act that can want memory, or the end of a call.
                if !self.go(alloc, hart)? {
                    return Ok(false);
                }
                made += 1;
            }
        }
        Ok(true)
    }

    // Makes ordinary acts, at most so many, and answers their number. Takes no memory.
    fn run(&mut self, alloc: Global, hart: u8, most: u32) -> u32
        ensures within { result ≤ most }
        ensures legal { can_run self.old hart result ≡ true }
        ensures after { self.new ≡ ran self.old hart result }
    {
        let mut none = Log::new(alloc);
        self.engine.run(hart, most, &mut none, false).count
    }

    /// Makes an ordinary act, where the hart can go on by one, and answers whether it was made. The
    /// hart is in a slot; where no slot is, it can't go on.
    #[tactic(auto, unfolding(run_history::specs::Legal::can_run, run_history::specs::After::ran))]
    pub fn go(&mut self, alloc: Global, hart: u8) -> Result<bool, MemoryWant>
        ensures value { IfOk result (λ is. is ≡ can_go self.old hart) }
        ensures after { IfOk result (λ is. is ≡ true → self.new ≡ next self.old hart) }
        ensures same { IfOk result (λ is. is ≡ false → self.new ≡ self.old) }
    {
        // A row of one does where the act can't want memory.
        if self.run(alloc, hart, 1) > 0 {
            return Ok(true);
        }
        if self.is_budget_spent() || !self.is_ready(hart) {
            return Ok(false);
        }
        let mut none = Log::new(alloc);
        let act = self.engine.advance(alloc, hart, &mut none, false)?;
        Ok(matches!(act, NextAct::Ordinary))
    }
}
