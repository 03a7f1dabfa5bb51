//! Words to instructions.
#![tactic(auto)]

mod decoder;
mod formats;
mod rows;
#[cfg(test)]
mod tests;

pub use decoder::decode;
