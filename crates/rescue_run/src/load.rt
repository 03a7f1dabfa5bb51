//! The load of a number: how it is prepared and run.
ghost use Rattle.std.specs.Prelude.{◌≡◌, ◌≤◌, ◌⊎◌, [], None, IfOk, false};
ghost use Rattle.edge_ports.specs.InMemory.{port_end, sink_end, sure_end};
ghost use Rattle.edge_ports.specs.Seen.{seen};
ghost use Rattle.load_maker.specs.File.{load_file};
ghost use Rattle.load_maker.specs.Program.{points_file};
ghost use Rattle.machine_core.specs.Machine.{AllOpen};
ghost use Rattle.program_words.specs.declared.limits.TheConstants.{LOADS};
ghost use Rattle.rescue_run.specs.Load.{out_of, IsLoadTo, IsSure};
ghost use Rattle.rescue_run.specs.Loading.{loaded_from};
ghost use Rattle.rescue_run.specs.Reads.{IsOrMemory};
ghost use Rattle.rescue_run.specs.Runs.{outcome_of};
ghost use Rattle.rescue_run.specs.Tasks.{CanRun, CanStart};
ghost use Rattle.rescue_run.specs.Words.{load_setup, load_with};
ghost use Rattle.trial_runs.specs.Subjects.{devices_with};

use crate::loading::loaded_from;
use crate::refusal::Refusal;
use crate::run::{Ran, run};
use crate::setup::{Schedule, Setup};
use crate::start::{Loaded, Start};
use crate::task::{LoadTask, Task};
use edge_ports::{Devices, MemoryPort, MemorySink, SureSource};
use guest_words::limits::BUDGET;
use guest_words::{Bytes, MemoryWant};
use load_maker::{Made, make};
use std::alloc::Global;
use trial_runs::any_failed;

/// How many slots for harts a load has.
const LOAD_HARTS: u8 = 4;

/// The bytes of the sum that a load writes.
const SUM_BYTES: u64 = 8;

/// The devices of a load: a source that never fails, sinks in memory, and no port.
type OwnDevices = Devices<SureSource, MemorySink, MemoryPort>;

/// What the run of a load leaves.
pub type LoadRan = Ran<SureSource, MemorySink, MemoryPort>;

/// The load of a number, with what its program and its rescue file give.
fn load_task(number: u64, input: Bytes, loaded: Loaded) -> LoadTask
    ensures value { result ≡ record {
      number = number;
      input = input;
      start = record { loaded = loaded; setup = load_setup number; save = None };
    } }
{
    let setup = Setup {
        harts: LOAD_HARTS,
        budget: BUDGET,
        schedule: Schedule::Lone { seed: number },
    };
    LoadTask {
        number,
        input,
        start: Start {
            loaded,
            setup,
            save: None,
        },
    }
}

/// The load of a number, ready to be run. It brings its own files, which are read as any others.
pub fn prepare_load(alloc: Global, number: u64) -> Result<Task, Refusal>
    requires least { 1 ≤ number }
    requires most { number ≤ LOADS }
    ensures value { IsOrMemory result (load_with number (loaded_from load_file points_file)) }
    ensures can { IfOk result (CanStart false) }
{
    let Made { elf, points, input } = make(alloc, number)?;
    match loaded_from(alloc, elf.items(), points.items()) {
        Ok(loaded) => Ok(Task::Load(load_task(number, input, loaded))),
        Err(refusal) => Err(refusal),
    }
}

fn own_devices(alloc: Global, input: Bytes) -> Result<OwnDevices, MemoryWant>
    ensures told { IfOk result
        (λ devices. seen sure_end sink_end port_end devices ≡ devices_with input) }
    ensures open { IfOk result (λ devices. AllOpen (seen sure_end sink_end port_end devices)) }
    ensures ports { IfOk result (λ devices. devices.ports.items ≡ []) }
{
    let out = MemorySink::with_room(alloc, SUM_BYTES, Vec::new(alloc))?;
    let err = MemorySink::new(Vec::new(alloc));
    let ports = Vec::new(alloc);
    Ok(Devices::new(SureSource::new(input), out, err, ports))
}

/// The same without its ending, if a device failed in it.
fn if_sure(ran: LoadRan) -> LoadRan
    ensures same { result ≡ (record ran { ending = result.ending }) }
    ensures ending { (result.ending ≡ ran.ending) ⊎ (result.ending ≡ None) }
    ensures sure { IsSure ran.history.entries (outcome_of result.ending) }
{
    let mut ran = ran;
    if any_failed(ran.history.items()) {
        ran.ending = None;
    }
    ran
}

/// Runs a load on devices of its own. Of these only the output can fail, and only for want of
/// memory, so that the run then has no ending.
pub fn run_load(alloc: Global, load: LoadTask) -> Result<LoadRan, MemoryWant>
    requires can { CanRun false load.start }
    ensures run { IfOk result (λ ran.
        IsLoadTo load ran.history.entries ran.points (outcome_of ran.ending)) }
    ensures out { IfOk result (λ ran. ran.devices.out.given ≡ out_of ran.history.entries) }
{
    let LoadTask { input, start, .. } = load;
    let devices = own_devices(alloc, input)?;
    match run(alloc, &start, devices) {
        Ok(ran) => Ok(if_sure(ran)),
        Err(_) => Err(MemoryWant),
    }
}
