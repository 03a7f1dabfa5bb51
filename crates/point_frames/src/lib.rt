//! The frames of rescue points: how one opens, and which close.
#![tactic(auto)]

mod closing;
mod opening;
#[cfg(test)]
mod tests;

pub use closing::{closed_after, is_over};
pub use opening::opened;
