//! Instructions to words, and the load: a program with its rescue file and its input, made from a
//! number.
#![tactic(auto)]

mod encoder;
mod file;
mod form;
mod input;
mod made;
mod program;
#[cfg(test)]
mod tests;

pub use encoder::encode;
pub use made::{Made, make};
