//! History files: a head and the entries of a run, spelled as bytes and read from them.
#![tactic(auto)]

mod entries;
mod fields;
mod file_fault;
mod front;
mod head;
mod plain_entries;
mod put;
mod reading;
mod refused;
mod shallow;
mod size;
mod spelling;
#[cfg(test)]
mod tests;
mod values;

pub use file_fault::{FileFault, FileKind};
pub use head::Head;
pub use reading::{one_history, read, read_front};
pub use shallow::can_spell;
pub use spelling::spell;
