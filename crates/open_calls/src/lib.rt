//! The calls of points that a hart has open, each within another, and the history of the run.
#![tactic(auto)]

mod calls;
mod list;
mod outer;
mod room;
mod taken;
#[cfg(test)]
mod tests;

pub use calls::Calls;
pub use taken::Taken;
