use checkpoints::Checkpoint;
use guest_words::PointRef;
use run_history::History;

/// What encloses an open call, with what was kept at its entering.
#[derive(Drop)]
pub struct Outer {
    /// The entries before.
    pub entries: History,
    /// How many notes the machine's log had.
    pub mark: u64,
    pub point: PointRef,
    pub kept: Checkpoint,
}
