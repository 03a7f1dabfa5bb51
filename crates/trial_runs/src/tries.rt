use guest_words::{Ending, Fault};
use rescue_trial::Trials;

/// What trials come to.
#[derive(Drop)]
pub enum Tries {
    /// Without points the run ends by this fault; the trials of the hart's call path.
    Faulted {
        hart: u8,
        fault: Fault,
        trials: Trials,
    },
    /// Without points the run ends so, and by no fault.
    Ended(Ending),
}
