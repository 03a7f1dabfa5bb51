//! One run of a subject.
ghost use Rattle.std.specs.Prelude.{◌≡◌, [], IfOk};
ghost use Rattle.edge_ports.specs.InMemory.{port_end, sink_end, sure_end};
ghost use Rattle.edge_ports.specs.Seen.{seen};
ghost use Rattle.machine_core.specs.Machine.{AllOpen};
ghost use Rattle.machine_core.specs.declared.limits.Mode.TheVariants as mode;
ghost use Rattle.trial_runs.specs.Subjects.{devices_with, start_with, CanTry};
ghost use Rattle.trial_runs.specs.Trials.{RunsTo};

use crate::devices::{OwnDevices, devices_with};
use crate::failures::any_failed;
use crate::subject::Subject;
use edge_ports::{MemoryPort, MemorySink, SureSource};
use guest_words::{Ending, MemoryWant, Points};
use lone_schedule::run_alone;
use machine_core::{Origin, Quiet};
use run_history::History;
use std::alloc::Global;
use std::marker::Brand;

/// What a run leaves that ended.
#[derive(Drop)]
pub(crate) struct Ran {
    pub history: History,
    pub ending: Ending,
}

/// A run from the state and with the devices that `K` names.
fn run_from<K: Origin>(
    alloc: Global,
    subject: &Subject,
    points: &Points,
    devices: OwnDevices,
) -> Result<Ran, MemoryWant>
    requires can { CanTry subject.now }
    requires open { AllOpen (seen sure_end sink_end port_end devices) }
    requires ports { devices.ports.items ≡ [] }
    requires told { seen sure_end sink_end port_end devices ≡ devices_with subject.now.input }
    requires lone { K.mode ≡ mode.Lone }
    requires state { K.state ≡ start_with subject.now points.now }
    requires devices { K.devices ≡ seen sure_end sink_end port_end devices }
    ensures runs { IfOk result
        (λ ran. RunsTo subject.now points.now ran.history.entries ran.ending) }
{
    let limits = subject.limits();
    let Ok(machine) = Quiet::<K, SureSource, MemorySink, MemoryPort>::start(
        alloc,
        &subject.image,
        points,
        limits,
        devices,
    ) else {
        return Err(MemoryWant);
    };
    let machine = run_alone(machine, subject.seed);
    let Some(ending) = machine.ending() else {
        return Err(MemoryWant);
    };
    let (history, _, _) = machine.into_parts();
    // These devices fail only where memory is wanting.
    if any_failed(history.items()) {
        return Err(MemoryWant);
    }
    Ok(Ran { history, ending })
}

/// The run of a subject with these points.
pub(crate) fn run(alloc: Global, subject: &Subject, points: &Points) -> Result<Ran, MemoryWant>
    requires can { CanTry subject.now }
    ensures runs { IfOk result
        (λ ran. RunsTo subject.now points.now ran.history.entries ran.ending) }
{
    let devices = devices_with(alloc, subject.input.copy(alloc)?);
    run_from::<Brand>(alloc, subject, points, devices)
}
