//! The words of a seed, by which one thread chooses among harts and a load makes its input.
#![tactic(auto)]

#[cfg(test)]
mod tests;
mod words;

pub use words::Words;
