//! The top calls.
ghost use Rattle.std.specs.Prelude.{◌≡◌, false, length, true, IfOk, IsNone};
ghost use Rattle.edge_ports.specs.Seen.{seen};
ghost use Rattle.machine_core.specs.Machine.{AllOpen};
ghost use Rattle.program_words.specs.Words.{texts};
ghost use Rattle.rescue_run.specs.Headline.{ComesTo, Headline};
ghost use Rattle.rescue_run.specs.Statuses.{status_of};
ghost use Rattle.rescue_run.specs.Tasks.{CanStart};
ghost use Rattle.rescue_run.specs.Top.{handed, sides, told, StaySame};

use crate::answer::Answer;
use crate::answers::{
    answer_audit, answer_list, answer_load, answer_refused, answer_run, answer_run_on_threads,
    answer_try,
};
use crate::prepare::prepare;
use crate::refusal::Refusal;
use crate::task::Task;
use edge_ports::{Devices, Port, Shelf, Sink, Source};
use std::alloc::Global;
use std::sync::Wait;
use std::thread::Threads;
use stop_gate::Door;

fn port_count<S: Source, T: Sink, P: Port>(devices: &Devices<S, T, P>) -> u64
    ensures { result ≡ length (seen S.end T.end P.end devices.now).ports }
{
    devices.ports.len() as u64
}

/// The devices of a run, none of them closed.
pub fn connect<S: Source, T: Sink, P: Port>(
    input: S,
    out: T,
    err: T,
    ports: Vec<P>,
) -> Devices<S, T, P>
    ensures told { seen S.end T.end P.end result
        ≡ handed S.end T.end P.end input out err ports.items }
    ensures open { AllOpen (seen S.end T.end P.end result) }
    ensures input { result.input ≡ input }
    ensures out { result.out ≡ out }
    ensures err { result.err ≡ err }
    ensures ports { result.ports ≡ ports }
{
    Devices::new(input, out, err, ports)
}

/// Does what was prepared, on one thread, or puts why nothing is done.
pub fn answer<F: Shelf, S: Source, T: Sink, P: Port, R: Sink>(
    alloc: Global,
    words: &[String],
    prepared: Result<Task, Refusal>,
    devices: Devices<S, T, P>,
    report: &mut R,
    shelf: &mut F,
) -> Answer<S, T, P>
    requires can { IfOk prepared (CanStart false) }
    requires open { AllOpen (seen S.end T.end P.end devices) }
    ensures comes { ComesTo (texts words.now) prepared (seen S.end T.end P.end devices)
        (sides (F.seen shelf.old) (F.seen shelf.new) (R.end report.old) (R.end report.new))
        (told S.end T.end P.end result) }
    ensures status { result.status ≡ status_of result.outcome }
    ensures same { StaySame result.history devices result.devices }
{
    match prepared {
        Ok(Task::Run(start)) => answer_run(alloc, &start, devices, report, shelf),
        Ok(Task::List(listing)) => answer_list(alloc, &listing, devices, report),
        Ok(Task::Load(load)) => answer_load(alloc, load, devices, report),
        Ok(Task::Audit(task)) => answer_audit(alloc, &task, devices, report),
        Ok(Task::Try(task)) => answer_try(alloc, &task, devices, report),
        Err(refusal) => answer_refused(alloc, words, &refusal, devices, report),
    }
}

/// Does what was prepared, where there are threads, or puts why nothing is done.
pub fn answer_on_threads<
    H: Threads + Wait + Sync,
    F: Shelf,
    S: Source + Send,
    T: Sink + Send,
    P: Port + Send,
    R: Sink,
    D: Door,
>(
    rt: &H,
    alloc: Global,
    words: &[String],
    prepared: Result<Task, Refusal>,
    devices: Devices<S, T, P>,
    report: &mut R,
    shelf: &mut F,
    door: &D,
) -> Answer<S, T, P>
    requires can { IfOk prepared (CanStart true) }
    requires open { AllOpen (seen S.end T.end P.end devices) }
    ensures comes { ComesTo (texts words.now) prepared (seen S.end T.end P.end devices)
        (sides (F.seen shelf.old) (F.seen shelf.new) (R.end report.old) (R.end report.new))
        (told S.end T.end P.end result) }
    ensures status { result.status ≡ status_of result.outcome }
    ensures same { StaySame result.history devices result.devices }
{
    match prepared {
        Ok(Task::Run(start)) => {
            answer_run_on_threads(rt, alloc, &start, devices, report, shelf, door)
        }
        Ok(Task::List(listing)) => answer_list(alloc, &listing, devices, report),
        Ok(Task::Load(load)) => answer_load(alloc, load, devices, report),
        Ok(Task::Audit(task)) => answer_audit(alloc, &task, devices, report),
        Ok(Task::Try(task)) => answer_try(alloc, &task, devices, report),
        Err(refusal) => answer_refused(alloc, words, &refusal, devices, report),
    }
}

/// Does what the words of a command ask for: runs a program to its end, and puts the report; lists
/// the symbols of a program; runs a load on devices of its own, and puts its summary; audits a saved
/// history, and puts what that says; or tries points on a program, and puts what each comes to. All
/// this on one thread: a command that needs more is refused. The history of a run is saved behind
/// its report, where the words name a file for it.
///
/// Where nothing is done, or a run doesn't end, the report sink is given one line instead. A
/// failure of that put changes nothing in the answer. `ports` are the devices from descriptor 3 on,
/// as many as the words name.
pub fn alone_top<F: Shelf, S: Source, T: Sink, R: Sink>(
    alloc: Global,
    words: &[String],
    shelf: &mut F,
    input: S,
    out: T,
    err: T,
    ports: Vec<Box<dyn Port + Send>>,
    report: &mut R,
) -> Answer<S, T>
    ensures headline { Headline false (texts words.now) (F.seen shelf.old) (F.seen shelf.new)
        (handed S.end T.end ⟦<Box<dyn Port + Send> as Port>⟧.end input out err ports.items)
        (R.end report.old) (R.end report.new)
        (told S.end T.end ⟦<Box<dyn Port + Send> as Port>⟧.end result) }

    // Where no machine was started, the objects are those that were handed in.
    ensures same { IsNone result.history
        → (result.devices.input ≡ input) × (result.devices.out ≡ out)
        × (result.devices.err ≡ err) × (result.devices.ports ≡ ports) }
{
    let devices = connect(input, out, err, ports);
    let prepared = prepare(alloc, false, words, port_count(&devices), shelf);
    answer(alloc, words, prepared, devices, report, shelf)
}

/// Does what [`alone_top`] does, where there are threads: a command on threads runs a program by a
/// worker for each hart. Each worker asks the door before each of its turns. It may wait forever.
pub fn top<H: Threads + Wait + Sync, F: Shelf, S: Source + Send, T: Sink + Send, R: Sink, D: Door>(
    rt: &H,
    alloc: Global,
    words: &[String],
    shelf: &mut F,
    input: S,
    out: T,
    err: T,
    ports: Vec<Box<dyn Port + Send>>,
    report: &mut R,
    door: &D,
) -> Answer<S, T>
    ensures headline { Headline true (texts words.now) (F.seen shelf.old) (F.seen shelf.new)
        (handed S.end T.end ⟦<Box<dyn Port + Send> as Port>⟧.end input out err ports.items)
        (R.end report.old) (R.end report.new)
        (told S.end T.end ⟦<Box<dyn Port + Send> as Port>⟧.end result) }

    // Where no machine was started, the objects are those that were handed in.
    ensures same { IsNone result.history
        → (result.devices.input ≡ input) × (result.devices.out ≡ out)
        × (result.devices.err ≡ err) × (result.devices.ports ≡ ports) }
{
    let devices = connect(input, out, err, ports);
    let prepared = prepare(alloc, true, words, port_count(&devices), shelf);
    answer_on_threads(rt, alloc, words, prepared, devices, report, shelf, door)
}
