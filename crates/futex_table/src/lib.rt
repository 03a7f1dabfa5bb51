//! The harts that wait to be woken, in their order.
#![tactic(auto)]

mod kept;
mod queue;
#[cfg(test)]
mod tests;
mod waking;
mod woken;

pub use kept::KeptQueue;
pub use queue::{Queue, SLOTS};
pub use woken::Woken;
