//! The answers of the calls that can refuse. Each hands a pass back.
use crate::held::Held;
use crate::passes::{Alone, Backing, Inside, Out, Stopping, Turning};

/// What `try_enter` answers.
#[derive(Drop)]
pub enum Enter<C: Held> {
    Inside(Inside<C>),
    /// The stop bit stood in `word`.
    Standing { word: u64, back: Backing<C> },
}

/// What `raise` answers.
#[derive(Drop)]
pub enum Raise<C: Held> {
    Stopping(Stopping<C>),
    /// The stop bit stood in `word`.
    Busy { word: u64, pass: Out<C> },
}

/// What `seize` answers.
#[derive(Drop)]
pub enum Seize<C: Held> {
    Alone(Alone<C>),
    /// So many passes counted, at least one.
    NotYet { inside: u64, pass: Stopping<C> },
}

/// What `try_take` answers.
#[derive(Drop)]
pub enum Take<C: Held> {
    Taken { turn: Turning<C>, held: C },
    /// The value was out: `word` is odd.
    Held { word: u64, pass: Inside<C> },
}
