//! The devices of trials.
ghost use Rattle.std.specs.Prelude.{◌≡◌, []};
ghost use Rattle.edge_ports.specs.InMemory.{port_end, sink_end, sure_end};
ghost use Rattle.edge_ports.specs.Seen.{seen};
ghost use Rattle.machine_core.specs.Machine.{AllOpen};
ghost use Rattle.trial_runs.specs.Subjects.{devices_with};

use edge_ports::{Devices, MemoryPort, MemorySink, SureSource};
use guest_words::Bytes;
use std::alloc::Global;

/// An input that never fails, outputs in memory, and no port.
pub(crate) type OwnDevices = Devices<SureSource, MemorySink, MemoryPort>;

/// Devices of a run with this input. Their outputs fail only where memory is wanting.
pub(crate) fn devices_with(alloc: Global, input: Bytes) -> OwnDevices
    ensures told { seen sure_end sink_end port_end result ≡ devices_with input }
    ensures open { AllOpen (seen sure_end sink_end port_end result) }
    ensures ports { result.ports.items ≡ [] }
{
    let out = MemorySink::new(Vec::new(alloc));
    let err = MemorySink::new(Vec::new(alloc));
    Devices::new(SureSource::new(input), out, err, Vec::new(alloc))
}
