//! What a gate knows of a machine.
ghost use Rattle.std.specs.Prelude.{◌≡◌, ◌<◌, ◌^◌, length};
ghost use Rattle.machine_core.specs.Beginnings.{beginning, is_over};

use crate::began::Began;
use crate::machine::Quiet;
use crate::origin::Origin;
use edge_ports::{Port, Sink, Source};
use run_history::Entry;
use stop_gate::Held;

impl<K: Origin, S: Source, T: Sink, P: Port> Held for Quiet<K, S, T, P> {
    type Origin = Began<K>;

    ghost length = { λ m. length m.history };

    ghost over = { is_over };

    ghost origin = { λ m. beginning K.state K.devices K.mode };

    fn length(&self) -> u64 {
        count(self.history().items())
    }

    fn over(&self) -> bool {
        self.abandoned() || self.ending().is_some()
    }
}

/// How many entries there are: each has some bytes, so that their number is small.
fn count(entries: &[Entry]) -> u64
    ensures value { result ≡ length entries.now }
    ensures within { result < 2 ^ 62 }
{
    entries.len() as u64
}
