ghost use Rattle.std.specs.Prelude.{◌≡◌, length, None, false};
ghost use Rattle.edge_ports.specs.DevicesMatch.{DevicesMatch};
ghost use Rattle.edge_ports.specs.Seen.{seen};
ghost use Rattle.machine_core.specs.Machine.{AllOpen};
ghost use Rattle.machine_core.specs.declared.limits.Mode.TheVariants as mode;
ghost use Rattle.run_history.specs.Counts.{records_of_all};
ghost use Rattle.rescue_run.specs.Runs.{outcome_of, start_of_run, IsRunTo};
ghost use Rattle.rescue_run.specs.Tasks.{CanRun};
ghost use Rattle.rescue_run.specs.Top.{RunsOn};
ghost use Rattle.rescue_run.specs.declared.setup.Schedule.TheVariants.{Workers};

use crate::setup::Schedule;
use crate::start::Start;
use edge_ports::{Devices, Port, Sink, Source};
use guest_words::{Ending, Points};
use lone_schedule::run_alone;
use machine_core::{Mode, Origin, Quiet};
use run_history::History;
use std::alloc::Global;
use std::marker::Brand;

/// What a run leaves.
#[derive(Drop)]
pub struct Ran<S, T, P> {
    pub history: History,
    /// The points at its end, each with what is left of its rescues.
    pub points: Points,
    pub devices: Devices<S, T, P>,
    /// How it ended; None where memory was wanting.
    pub ending: Option<Ending>,
}

/// What the run of a machine leaves, in whichever order its harts took turns.
pub fn ran_of<K: Origin, S: Source, T: Sink, P: Port>(machine: Quiet<K, S, T, P>) -> Ran<S, T, P>
    requires fresh { K.state.ending ≡ None }
    ensures run { IsRunTo K.state Workers result.history.entries result.points
        (outcome_of result.ending) }
    ensures matches { DevicesMatch K.devices (seen S.end T.end P.end result.devices) 0
        (records_of_all result.history.entries) }
    ensures history { result.history.entries ≡ machine.history }
{
    let ending = machine.ending();
    let (history, points, devices) = machine.into_parts();
    Ran {
        history,
        points,
        devices,
        ending,
    }
}

/// A run from the state and with the devices that `K` names.
fn run_from<K: Origin, S: Source, T: Sink, P: Port>(
    alloc: Global,
    start: &Start,
    devices: Devices<S, T, P>,
) -> Result<Ran<S, T, P>, Devices<S, T, P>>
    requires can { CanRun false start.now }
    requires open { AllOpen (seen S.end T.end P.end devices) }
    requires lone { K.mode ≡ mode.Lone }
    requires state { K.state ≡ start_of_run start.now (length devices.ports.items) }
    requires devices { K.devices ≡ seen S.end T.end P.end devices }
    ensures runs { RunsOn S.end T.end P.end start.now devices result }
{
    let Start { loaded, setup, .. } = start;
    let Schedule::Lone { seed } = setup.schedule else {
        unreachable!()
    };
    let machine = Quiet::<K, S, T, P>::start(
        alloc,
        &loaded.image,
        &loaded.points,
        setup.limits(Mode::Lone),
        devices,
    )?;
    Ok(ran_of(run_alone(machine, seed)))
}

/// Runs what was loaded, on one thread by the words of its seed, until it ends or memory is
/// wanting. An Err has the devices as they were: memory was wanting before a machine was started.
pub fn run<S: Source, T: Sink, P: Port>(
    alloc: Global,
    start: &Start,
    devices: Devices<S, T, P>,
) -> Result<Ran<S, T, P>, Devices<S, T, P>>
    requires can { CanRun false start.now }
    requires open { AllOpen (seen S.end T.end P.end devices) }
    ensures runs { RunsOn S.end T.end P.end start.now devices result }
{
    run_from::<Brand, S, T, P>(alloc, start, devices)
}
