//! The runs of trials: a program without points, and with each function on the way to its fault as
//! the only point.
#![tactic(auto)]

mod devices;
mod failures;
mod run;
mod subject;
#[cfg(test)]
mod tests;
mod tries;
mod trying;

pub use failures::any_failed;
pub use subject::Subject;
pub use tries::Tries;
pub use trying::try_points;
