use crate::queue::SLOTS;

/// The harts that a call woke.
#[derive(Clone, Copy, Debug, PartialEq, Eq)]
pub struct Woken {
    /// True exactly at their slots.
    pub slots: [bool; SLOTS],
    /// Their number.
    pub count: u32,
}
