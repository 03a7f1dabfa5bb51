//! A worker for each hart of a machine: they take the machine in turn, until its run is over.
#![tactic(auto)]

mod alone;
mod pace;
mod pause;
mod runs;
mod settle;
mod sleepers;
mod steps;
mod stretch;
mod turned;
mod waking;
mod worker;

pub use runs::run_all;
pub use worker::work;
