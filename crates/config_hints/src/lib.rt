//! What is wrong with a broken rescue file, and what would be right, for the person who wrote it.
#![tactic(auto)]

mod keys;
mod lines;
mod right;
mod shown;
mod tables;
#[cfg(test)]
mod tests;
mod wrong;

pub use lines::{explanation, fault_explanation};
