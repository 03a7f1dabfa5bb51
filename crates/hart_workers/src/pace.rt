//! When a worker tries a stretch. No clause speaks of it.

/// How many register acts a stretch has at most.
pub const STRETCH: u32 = 4096;

/// How many acts a stretch has at least that pays for its hand-overs.
const PAYING: u32 = 64;

/// How many turns pass before another stretch is tried, where one doesn't pay.
const REST: u32 = 16;

/// How many turns are left before a stretch is tried.
#[derive(Clone, Copy, Debug)]
pub struct Pace {
    left: u32,
}

impl Pace {
    pub fn new() -> Pace {
        Pace { left: 0 }
    }

    /// Whether a stretch is to be tried behind this turn.
    pub fn is_due(&mut self) -> bool {
        if self.left > 0 {
            self.left -= 1;
            return false;
        }
        true
    }

    /// A stretch doesn't pay now.
    pub fn rest(&mut self) {
        self.left = REST;
    }

    /// A stretch had so many acts. One that came to its end before the limit stands at an act of
    /// another kind, which is stepped first.
    pub fn made(&mut self, count: u32) {
        self.left = match count {
            0..PAYING => REST,
            PAYING..STRETCH => 1,
            _ => 0,
        };
    }
}
