//! The machine: a run's state, history and devices together, with the calls of points that a hart
//! has open.
#![tactic(auto)]

mod active;
mod began;
mod begin;
mod commit;
mod ending;
mod enter;
mod failing;
mod gated;
mod held;
mod inner;
mod limits;
mod machine;
mod origin;
mod quiet;
mod readers;
mod room;
mod same_hart;
mod serve;
mod start_points;
mod stepped;
mod stretches;
mod thinning;
mod turns;
mod under;

pub use began::Began;
pub use commit::Commit;
pub use limits::{Limits, Mode};
pub use machine::{Active, Begin, Next, Quiet};
pub use origin::Origin;
pub use stepped::Stepped;
