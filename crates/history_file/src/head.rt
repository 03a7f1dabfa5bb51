/// What a history file says of the machine before its entries.
#[derive(Clone, Copy, Debug, PartialEq, Eq)]
pub struct Head {
    /// How many harts the machine can have, 1 to 64.
    pub harts: u8,
    /// How many ports were handed in.
    pub ports: u64,
    /// The budget in steps, 1 to 20,000,000.
    pub budget: u64,
}
