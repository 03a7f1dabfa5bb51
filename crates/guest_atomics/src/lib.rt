//! Atomic memory operations, and the reservations of harts.
#![tactic(auto)]

mod harts;
mod kept;
mod operation;
mod readings;
mod reservation;
#[cfg(test)]
mod tests;

pub use harts::Harts;
pub use kept::KeptHarts;
pub use operation::amo;
pub use reservation::{holds, touch};
