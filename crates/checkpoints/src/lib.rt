//! What is kept of a machine where a hart enters a rescue point.
#![tactic(auto)]

mod checkpoint;
#[cfg(test)]
mod tests;

pub use checkpoint::Checkpoint;
