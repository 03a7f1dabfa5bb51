//! The top call: a program from its words to its status.
#![tactic(auto)]

mod answer;
mod answers;
mod audit;
mod file_ports;
mod files;
mod further;
mod hints;
pub mod limits;
mod lines;
mod listing;
mod load;
mod loading;
mod names;
mod outcome;
mod prepare;
mod put;
mod refusal;
mod run;
mod save;
mod setup;
mod shared;
mod shown;
mod start;
mod system;
mod task;
mod tops;
mod trying;

pub use answer::Answer;
pub use outcome::{Outcome, Which};
pub use system::{run_program, run_program_to};
pub use tops::{alone_top, top};
