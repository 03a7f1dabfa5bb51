//! Entries and histories of a run, and what a run is: the state after an entry, legal entries, the
//! licence of a rescue.
#![tactic(auto)]

mod entry;
mod history;
#[cfg(test)]
mod tests;

pub use entry::Entry;
pub use history::History;
