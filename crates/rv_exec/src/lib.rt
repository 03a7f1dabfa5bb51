//! What instructions make of register values: results, conditions and targets.
#![tactic(auto)]

mod branches;
mod results;
#[cfg(test)]
mod tests;

pub use branches::{branch_taken, target};
pub use results::alu;
