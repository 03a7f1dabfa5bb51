/// How an instruction lays its registers and its immediate into a word.
#[derive(Clone, Copy, Debug, PartialEq, Eq)]
pub enum Format {
    /// rd and bits 31 to 12 of the immediate.
    Upper,
    /// rd and an even offset of 21 bits.
    Jump,
    /// rd, rs1 and a signed immediate of 12 bits.
    Immediate,
    /// rs1, rs2 and an even offset of 13 bits.
    Branch,
    /// rs1, rs2 and a signed immediate of 12 bits.
    Store,
    /// rd, rs1 and a shift of 0 to 63.
    Shift,
    /// rd, rs1 and a shift of 0 to 31.
    WordShift,
    /// rd, rs1 and rs2.
    Register,
    /// No register and no immediate.
    Bare,
}
