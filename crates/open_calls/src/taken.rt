use checkpoints::Checkpoint;
use guest_words::PointRef;
use run_history::History;

/// A call that is taken back.
#[derive(Drop)]
pub struct Taken {
    /// What happened since it was entered.
    pub inside: History,
    /// The notes in the machine's log from here on have come since then.
    pub mark: u64,
    pub point: PointRef,
    /// What was kept at its entering.
    pub kept: Checkpoint,
}
