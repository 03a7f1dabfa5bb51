use crate::outcome::Outcome;
use edge_ports::{Devices, Port};
use guest_words::Points;
use run_history::History;

/// What a command came to.
#[derive(Drop)]
pub struct Answer<S, T, P = Box<dyn Port + Send>> {
    /// The exit status.
    pub status: u8,
    pub outcome: Outcome,
    pub devices: Devices<S, T, P>,
    /// What happened, where a machine was started.
    pub history: Option<History>,
    /// The points at the end, each with what is left of its rescues, where a machine was started.
    pub points: Option<Points>,
}
