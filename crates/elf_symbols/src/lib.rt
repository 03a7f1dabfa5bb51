//! The function symbols of an ELF file that the loader accepts.
#![tactic(auto)]

mod accept;
mod check;
mod entry;
mod finder;
mod found;
mod reader;
mod strings;
mod sym_fault;
mod symbol;
mod symbol_name;
mod symbol_table;
mod symbols;
mod symbols_fault;
mod tallies;
mod tally;
#[cfg(test)]
mod tests;

pub use finder::Finder;
pub use found::Found;
pub use reader::functions;
pub use sym_fault::SymFault;
pub use symbol::Symbol;
pub use symbol_name::SymbolName;
pub use symbol_table::SymbolTable;
pub use symbols::Symbols;
pub use symbols_fault::SymbolsFault;
