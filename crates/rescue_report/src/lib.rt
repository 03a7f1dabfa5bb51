//! The texts of the program: the report on a finished run, the list of a program's symbols, and the
//! summary of the run of a load.
#![tactic(auto)]

mod counts;
mod digits;
mod gathered;
mod lines;
mod list;
mod list_fault;
mod list_put;
mod numbers;
mod report;
mod summary;
#[cfg(test)]
mod tests;

pub use counts::Counts;
pub use lines::put_count;
pub use list_fault::ListFault;
pub use list_put::put_list;
pub use numbers::put_hexadecimal;
pub use report::report_text;
pub use summary::summary_text;
