//! Machines that a test drives by their own calls.
ghost use Rattle.std.specs.Prelude.{◌≡◌, ◌≤◌, ◌<◌, [], false, length, None, IfOk};
ghost use Rattle.edge_ports.specs.InMemory.{port_end, sink_end, source_end};
ghost use Rattle.edge_ports.specs.Seen.{seen};
ghost use Rattle.machine_core.specs.Machine.{AllOpen};

use edge_ports::{Devices, MemoryPort, MemorySink, MemorySource};
use guest_words::Bytes;
use machine_core::{Origin, Quiet, Stepped};
use std::alloc::Global;
use std::process::Abort;
use std::test::Fail;

pub type Driven<K> = Quiet<K, MemorySource, MemorySink, MemoryPort>;

pub type NoDevices = Devices<MemorySource, MemorySink, MemoryPort>;

/// An empty input, two outputs and no port.
pub fn devices(alloc: Global) -> NoDevices
    ensures open { AllOpen (seen source_end sink_end port_end result) }
    ensures ports { result.ports.items ≡ [] }
{
    Devices::new(
        MemorySource::new(Bytes::of(Vec::new(alloc)), Vec::new(alloc)),
        MemorySink::new(Vec::new(alloc)),
        MemorySink::new(Vec::new(alloc)),
        Vec::new(alloc),
    )
}

/// Steps a hart, by which it has to move.
pub fn step<K: Origin>(
    rt: &impl Abort,
    machine: &mut Driven<K>,
    hart: u8,
    quantum: u32,
) -> Result<(), Fail>
    requires going { machine.old.state.ending ≡ None }
    requires kept { machine.old.abandoned ≡ false }
    requires hart { hart < length K.state.slots }
    requires quantum { (1 ≤ quantum) × (quantum ≤ 4096) }
    ensures going { IfOk result (λ done. machine.new.state.ending ≡ None) }
    ensures kept { IfOk result (λ done. machine.new.abandoned ≡ false) }
{
    let stepped = machine.step(hart, quantum)?;
    assert_eq!(rt; stepped, Stepped::Moved);
    goes_on(machine)
}

/// That the run goes on.
pub fn goes_on<K: Origin>(machine: &Driven<K>) -> Result<(), Fail>
    ensures going { IfOk result (λ done. machine.now.state.ending ≡ None) }
    ensures kept { IfOk result (λ done. machine.now.abandoned ≡ false) }
{
    if machine.abandoned() {
        return Err(Fail::new("the machine is abandoned"));
    }
    match machine.ending() {
        None => Ok(()),
        Some(_) => Err(Fail::new("the run has ended")),
    }
}
