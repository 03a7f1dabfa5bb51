//! Trials: points on the call path of a fault, each tried alone.
#![tactic(auto)]

mod calls;
mod functions;
mod path;
mod text;
mod trial;
mod trials;

pub use path::call_path;
pub use text::trial_text;
pub use trial::Trial;
pub use trials::Trials;
