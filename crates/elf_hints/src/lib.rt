//! What would be right in a program that is refused, for the person who built it.
#![tactic(auto)]

mod hints;
#[cfg(test)]
mod tests;

pub use hints::{elf_hint, sym_hint};
