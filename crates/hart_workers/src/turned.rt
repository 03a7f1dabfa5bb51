/// What a worker's turn came to.
#[derive(Clone, Copy, Debug, PartialEq, Eq)]
pub enum Turned {
    /// The hart went on, or its stretch was dropped.
    Moved,
    /// Another has the machine, or stops all.
    Held,
    /// The hart isn't ready.
    Idle,
    /// The hart stands at the entry of a point.
    Arrived,
    /// The machine is over.
    Over,
}
