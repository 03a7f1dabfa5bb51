//! What is wrong with words that are refused, in a person's words.
#![tactic(auto)]

mod complaint;
mod explain;
mod given;
mod lines;
mod option_name;
mod place;
#[cfg(test)]
mod tests;
mod walk;
mod wanted;

pub use complaint::Complaint;
pub use explain::explanation;
pub use option_name::OptionName;
pub use place::Place;
