//! What a pass knows. It is there for proofs alone.

/// Where a pass is.
pub enum Place {
    /// It is outside.
    Out,
    /// It counted itself in beside the stop bit, and has to go back.
    Backing,
    /// It is inside.
    Inside,
    /// It is inside, and its holder has the value.
    Turning,
    /// It has raised the stop bit.
    Stopping,
    /// It has raised the stop bit, and nobody is inside.
    Alone,
    /// It is alone, and its holder has the value.
    AloneTurning,
    /// It is no more.
    Spent,
}

/// What a pass knows. No value of it is made.
pub struct View<O> {
    pub at: Place,
    /// The greatest length that it has seen.
    pub seen: u64,
    /// The length of the value when it was taken last.
    pub taken: u64,
    /// Whether it has seen the value over.
    pub over: bool,
    /// How many steps it has made.
    pub made: u64,
    /// The word that its newest step found.
    pub last: u64,
    /// How many further passes it may make.
    pub spare: u64,
    /// What the gate's value began as.
    pub origin: O,
}
