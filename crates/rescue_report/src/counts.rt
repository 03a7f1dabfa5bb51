ghost use Rattle.std.specs.Prelude.{◌≡◌, ◌+◌, length, IfOk, OnOk};
ghost use Rattle.run_history.specs.Counts.{steps_of, steps_of_all, records_of, records_of_all};
ghost use Rattle.rescue_report.specs.Rescues.{rescues_of, rescues_of_all};

use guest_words::MemoryWant;
use run_history::Entry;

/// What entries hold, all insides included. The sums have 128 bits, which no history that fits in
/// memory can pass, so a sum beyond them is answered as want of memory.
#[derive(Clone, Copy, Debug, PartialEq, Eq)]
pub struct Counts {
    /// Instructions, and one for each call on a device.
    pub steps: u128,
    /// Calls on devices.
    pub records: u128,
    /// Rescued calls.
    pub rescues: u128,
}

impl Counts {
    /// The counts of a list of entries.
    pub fn of(entries: &[Entry]) -> Result<Counts, MemoryWant>
        ensures steps { IfOk result (λ counts. counts.steps ≡ steps_of_all entries.now) }
        ensures records { IfOk result
            (λ counts. counts.records ≡ length (records_of_all entries.now)) }
        ensures rescues { IfOk result (λ counts. counts.rescues ≡ rescues_of_all entries.now) }
    {
        let mut counts = Counts {
            steps: 0,
            records: 0,
            rescues: 0,
        };
        counts.add_all(entries)?;
        Ok(counts)
    }

    #[cycle(counts)]
    fn add_all(&mut self, entries: &[Entry]) -> Result<(), MemoryWant>
        ensures steps { OnOk result (self.new.steps ≡ self.old.steps + steps_of_all entries.now) }
        ensures records { OnOk result
            (self.new.records ≡ self.old.records + length (records_of_all entries.now)) }
        ensures rescues { OnOk result
            (self.new.rescues ≡ self.old.rescues + rescues_of_all entries.now) }
    {
        for entry in entries {
            self.add(entry)?;
        }
        Ok(())
    }

    #[cycle(counts)]
    #[tactic(auto, unfolding(run_history::specs::Counts::steps_of, run_history::specs::Counts::records_of, crate::specs::Rescues::rescues_of))]
    fn add(&mut self, entry: &Entry) -> Result<(), MemoryWant>
        ensures steps { OnOk result (self.new.steps ≡ self.old.steps + steps_of entry.now) }
        ensures records { OnOk result
            (self.new.records ≡ self.old.records + length (records_of entry.now)) }
        ensures rescues { OnOk result (self.new.rescues ≡ self.old.rescues + rescues_of entry.now) }
    {
        match entry {
            Entry::Ran { count, .. } => {
                self.steps = sum(self.steps, u128::from(*count))?;
                Ok(())
            }
            Entry::Called { .. } => {
                self.steps = sum(self.steps, 1)?;
                self.records = sum(self.records, 1)?;
                Ok(())
            }
            Entry::Rescued { inside, .. } => {
                self.rescues = sum(self.rescues, 1)?;
                self.add_all(inside.as_slice())
            }
            Entry::Entered { .. } | Entry::Ended { .. } => Ok(()),
        }
    }
}

/// The sum, or want of memory beyond 128 bits.
pub(crate) fn sum(a: u128, b: u128) -> Result<u128, MemoryWant>
    ensures ok { IfOk result (λ sum. sum ≡ a + b) }
{
    a.checked_add(b).ok_or(MemoryWant)
}
