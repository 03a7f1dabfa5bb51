//! The harts of a machine by slot, each with its open frames.
#![tactic(auto)]

mod calls;
mod changes;
mod child;
mod frames;
mod harts;
mod places;
mod queries;
mod readers;
mod registers;
mod slots;
#[cfg(test)]
mod tests;

pub use slots::Slots;
