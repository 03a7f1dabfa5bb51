//! ELF files: whether one is accepted, and its image.
#![tactic(auto)]

mod accept;
mod check;
pub mod fields;
mod header;
mod load_fault;
mod loader;
mod program_header;
pub mod rules;
mod segment;
mod segment_list;
mod table;
#[cfg(test)]
mod tests;

pub use load_fault::LoadFault;
pub use loader::load;
