//! The rescue points that a rescue file names.
#![tactic(auto)]

mod codes;
mod document;
mod fields;
mod member;
mod point;
mod point_fault;
mod points_fault;
mod reader;
mod rescues;
mod target;
#[cfg(test)]
mod tests;
mod values;
mod version;

pub use point_fault::PointFault;
pub use points_fault::PointsFault;
pub use reader::read_points;
