// Numbers of ELF files, by the System V gABI.

/// Types of program headers: bytes for memory, dynamic linking, the name of an interpreter.
pub const PT_LOAD: u32 = 1;

pub const PT_DYNAMIC: u32 = 2;

pub const PT_INTERP: u32 = 3;
