// Numbers of the registers that calls and frames name, by their names in the RISC-V psABI.

/// The return address.
pub const RA: usize = 1;

/// The stack pointer.
pub const SP: usize = 2;

/// The thread pointer.
pub const TP: usize = 4;

/// The first argument and the answer of a call.
pub const A0: usize = 10;

pub const A1: usize = 11;

pub const A2: usize = 12;

pub const A3: usize = 13;

pub const A4: usize = 14;

/// The number of a call.
pub const A7: usize = 17;
