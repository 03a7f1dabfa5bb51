//! Calls of a guest, pure: what a hart asks for, and what the answer is.
#![tactic(auto)]

mod flags;
mod replies;
mod requests;
#[cfg(test)]
mod tests;

pub use replies::{answer, is_in_area};
pub use requests::ask;
