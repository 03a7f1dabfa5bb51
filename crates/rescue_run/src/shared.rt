//! Runs by workers, each in a thread of its own.
ghost use Rattle.std.specs.Prelude.{◌≡◌, length, true};
ghost use Rattle.edge_ports.specs.Seen.{seen};
ghost use Rattle.machine_core.specs.Machine.{AllOpen};
ghost use Rattle.machine_core.specs.declared.limits.Mode.TheVariants as mode;
ghost use Rattle.rescue_run.specs.Runs.{start_of_run};
ghost use Rattle.rescue_run.specs.Tasks.{CanRun};
ghost use Rattle.rescue_run.specs.Top.{RunsOn};
ghost use Rattle.rescue_run.specs.declared.setup.Schedule.TheVariants.{Workers};

use crate::run::{Ran, ran_of, run};
use crate::setup::Schedule;
use crate::start::Start;
use edge_ports::{Devices, Port, Sink, Source};
use hart_workers::run_all;
use machine_core::{Mode, Origin, Quiet};
use std::alloc::Global;
use std::marker::Brand;
use std::sync::Wait;
use std::thread::Threads;
use stop_gate::Door;

/// A run by workers from the state and with the devices that `K` names.
fn work_from<
    H: Threads + Wait + Sync,
    K: Origin + Send + Sync,
    S: Source + Send,
    T: Sink + Send,
    P: Port + Send,
    D: Door,
>(
    rt: &H,
    alloc: Global,
    start: &Start,
    devices: Devices<S, T, P>,
    door: &D,
) -> Result<Ran<S, T, P>, Devices<S, T, P>>
    requires can { CanRun true start.now }
    requires workers { start.now.setup.schedule ≡ Workers }
    requires open { AllOpen (seen S.end T.end P.end devices) }
    requires shared { K.mode ≡ mode.Shared }
    requires state { K.state ≡ start_of_run start.now (length devices.ports.items) }
    requires devices { K.devices ≡ seen S.end T.end P.end devices }
    ensures runs { RunsOn S.end T.end P.end start.now devices result }
{
    let Start { loaded, setup, .. } = start;
    let machine = Quiet::<K, S, T, P>::start(
        alloc,
        &loaded.image,
        &loaded.points,
        setup.limits(Mode::Shared),
        devices,
    )?;
    Ok(ran_of(run_all(rt, alloc, machine, door)))
}

/// Runs what was loaded by its schedule, until it ends or memory is wanting. An Err has the devices
/// as they were: memory was wanting before a machine was started. By workers it may wait forever.
pub fn run_on_threads<
    H: Threads + Wait + Sync,
    S: Source + Send,
    T: Sink + Send,
    P: Port + Send,
    D: Door,
>(
    rt: &H,
    alloc: Global,
    start: &Start,
    devices: Devices<S, T, P>,
    door: &D,
) -> Result<Ran<S, T, P>, Devices<S, T, P>>
    requires can { CanRun true start.now }
    requires open { AllOpen (seen S.end T.end P.end devices) }
    ensures runs { RunsOn S.end T.end P.end start.now devices result }
{
    match start.setup.schedule {
        Schedule::Lone { .. } => run(alloc, start, devices),
        Schedule::Workers => work_from::<H, Brand, S, T, P, D>(rt, alloc, start, devices, door),
    }
}
