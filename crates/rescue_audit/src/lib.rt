//! Audits: whether a saved history is a run, and the bytes of its devices are those of files.
#![tactic(auto)]

mod ending;
mod files;
mod lines;
mod matching;
mod no;
mod replay;
#[cfg(test)]
mod tests;
mod verdict;
mod walk;

pub use files::{AuditFiles, PortFile, PortFiles};
pub use lines::{no_text, yes_text};
pub use no::{No, Verdict};
pub use verdict::audit;
