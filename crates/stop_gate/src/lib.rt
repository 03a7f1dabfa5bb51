//! A gate: one value that threads take in turn, and a bit by which one of them has it alone.
#![tactic(auto)]

mod answers;
mod close;
mod consequences;
mod door;
mod entry;
mod gate;
mod held;
mod make;
mod passes;
mod rule;
mod steps;
mod stop;
#[cfg(test)]
mod tests;
mod turn;
mod view;
mod word;

pub use answers::{Enter, Raise, Seize, Take};
pub use door::{Door, OpenDoor};
pub use gate::Gate;
pub use held::Held;
pub use passes::{Alone, AloneTurning, Backing, Inside, Out, Stopping, Turning};
pub use view::{Place, View};
