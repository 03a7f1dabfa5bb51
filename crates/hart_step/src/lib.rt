//! The executable state of a run, and its changes in place.
#![tactic(auto)]

mod acts;
mod amo;
mod before;
mod calls;
mod carry;
mod changes;
mod deciding;
mod did;
mod doing;
mod engine;
mod facts;
mod guest;
mod guest_changes;
mod guest_serving;
mod hurry;
mod known;
mod leg;
mod look;
mod mapping;
mod memory_rows;
mod next_act;
mod outcomes;
mod quantum;
mod rare_rows;
mod readers;
mod record_log;
mod register_rows;
mod registers;
mod restore;
mod running;
mod serving;
mod step;
mod stretches;
mod text;
mod text_pages;
mod wants;

pub use deciding::decide;
pub use engine::Engine;
pub use next_act::{Ask, NextAct, Run};
pub use stretches::run_registers;
pub use text::Text;
