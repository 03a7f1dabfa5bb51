use crate::symbol_name::SymbolName;

/// A function of a program.
#[derive(Drop)]
pub struct Symbol<'a> {
    /// The guest address of its first instruction.
    pub value: u64,
    /// How many bytes it has, as the file says.
    pub size: u64,
    pub name: SymbolName<'a>,
}
