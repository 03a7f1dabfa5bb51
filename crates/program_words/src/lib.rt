//! The words of a command line, and what they ask for.
#![tactic(auto)]

mod command;
mod command_kind;
mod from_matches;
mod help;
pub mod limits;
mod parse;
mod port_name;
mod port_word;
mod reader;
mod table;
#[cfg(test)]
mod tests;
mod usage;
mod values;
mod word_fault;
mod words_fault;

pub use command::Command;
pub use command_kind::CommandKind;
pub use help::{help_text, version_text};
pub use port_name::{PortName, PortNames};
pub use port_word::is_port;
pub use reader::{needs_threads, port_names, read_words, report_file, report_to_out};
pub use word_fault::WordFault;
pub use words_fault::WordsFault;
