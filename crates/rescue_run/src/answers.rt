//! What each kind of command is answered.
ghost use Rattle.std.specs.Prelude.{◌≡◌, length, None, Some, false, true};
ghost use Rattle.edge_ports.specs.declared.devices.Devices.{Devices};
ghost use Rattle.edge_ports.specs.End.{End};
ghost use Rattle.edge_ports.specs.Seen.{seen};
ghost use Rattle.edge_ports.specs.Shelves.{Shelved};
ghost use Rattle.guest_words.specs.Image.{IsLoadList};
ghost use Rattle.history_file.specs.HistoryBytes.{history_bytes};
ghost use Rattle.history_file.specs.Spelled.{IsHead};
ghost use Rattle.machine_core.specs.Machine.{AllOpen};
ghost use Rattle.rescue_report.specs.Report.{report_of};
ghost use Rattle.rescue_report.specs.Summary.{summary_of};
ghost use Rattle.rescue_run.specs.Headline.{AreTrialsRun, IsAudit, IsListing, IsLoadRun, IsRunOn};
ghost use Rattle.program_words.specs.Words.{texts};
ghost use Rattle.rescue_run.specs.Hints.{refusal_text};
ghost use Rattle.rescue_run.specs.Lines.{line_of};
ghost use Rattle.rescue_run.specs.Puts.{IsSaid, IsTold, PutsText};
ghost use Rattle.rescue_run.specs.Runs.{head_of};
ghost use Rattle.rescue_run.specs.Saves.{SavesBehind};
ghost use Rattle.rescue_run.specs.Statuses.{status_of};
ghost use Rattle.rescue_run.specs.Tasks.{CanRun};
ghost use Rattle.rescue_run.specs.Top.{sides, told, RunsOn, StaySame};
ghost use Rattle.rescue_run.specs.declared.outcome.Outcome.{Outcome};
ghost use Rattle.trial_runs.specs.Subjects.{CanTry};

use crate::answer::Answer;
use crate::audit::put_audit;
use crate::listing::Listing;
use crate::load::{LoadRan, run_load};
use crate::outcome::Outcome;
use crate::put::{put_memory, put_refusal, put_report, put_summary, put_symbols};
use crate::refusal::Refusal;
use crate::run::{Ran, run};
use crate::save::save_behind;
use crate::shared::run_on_threads;
use crate::start::Start;
use crate::task::{AuditTask, LoadTask, TryTask};
use crate::trying::put_try;
use edge_ports::{Devices, Port, Shelf, Sink, Source};
use guest_words::Name;
use history_file::Head;
use std::alloc::Global;
use std::sync::Wait;
use std::thread::Threads;
use stop_gate::Door;

/// The answer of a command for which no machine was started.
fn still<S, T, P>(outcome: Outcome, devices: Devices<S, T, P>) -> Answer<S, T, P>
    ensures value { result ≡ record {
      status = status_of outcome;
      outcome = outcome;
      devices = devices;
      history = None;
      points = None;
    } }
{
    Answer {
        status: outcome.status(),
        outcome,
        devices,
        history: None,
        points: None,
    }
}

/// The answer of a command that nothing is done for: why is put.
pub fn answer_refused<S, T, P, R: Sink>(
    alloc: Global,
    words: &[String],
    refusal: &Refusal,
    devices: Devices<S, T, P>,
    report: &mut R,
) -> Answer<S, T, P>
    ensures said { IsSaid refusal.now.outcome result.outcome }
    ensures text { IsTold (refusal_text (texts words.now) refusal.now.lines result.outcome)
        (R.end report.old) (R.end report.new) }
    ensures answer { result ≡ record {
      status = status_of result.outcome;
      outcome = result.outcome;
      devices = devices;
      history = None;
      points = None;
    } }
{
    let outcome = put_refusal(alloc, report, words, refusal);
    still(outcome, devices)
}

/// The answer where memory was wanting before a machine was started: that is put.
fn answer_wanting<S, T, P, R: Sink>(devices: Devices<S, T, P>, report: &mut R) -> Answer<S, T, P>
    ensures line { IsTold (line_of Outcome.Memory) (R.end report.old) (R.end report.new) }
    ensures answer { result ≡ record {
      status = status_of Outcome.Memory;
      outcome = Outcome.Memory;
      devices = devices;
      history = None;
      points = None;
    } }
{
    let outcome = put_memory(report);
    still(outcome, devices)
}

/// The answer of a list: it is put.
pub fn answer_list<S: Source, T: Sink, P: Port, R: Sink>(
    alloc: Global,
    listing: &Listing,
    devices: Devices<S, T, P>,
    report: &mut R,
) -> Answer<S, T, P>
    ensures listing { (s : Shelved) → IsListing listing.now (seen S.end T.end P.end devices)
        (sides s s (R.end report.old) (R.end report.new)) (told S.end T.end P.end result) }
    ensures status { result.status ≡ status_of result.outcome }
    ensures same { StaySame result.history devices result.devices }
{
    let outcome = put_symbols(alloc, report, &listing.symbols());
    still(outcome, devices)
}

/// The answer of an audit: what it says is put.
pub fn answer_audit<S: Source, T: Sink, P: Port, R: Sink>(
    alloc: Global,
    task: &AuditTask,
    devices: Devices<S, T, P>,
    report: &mut R,
) -> Answer<S, T, P>
    requires image { IsLoadList task.now.loaded.image.loads }
    ensures audit { (s : Shelved) → IsAudit task.now (seen S.end T.end P.end devices)
        (sides s s (R.end report.old) (R.end report.new)) (told S.end T.end P.end result) }
    ensures status { result.status ≡ status_of result.outcome }
    ensures same { StaySame result.history devices result.devices }
{
    let outcome = put_audit(alloc, report, task);
    still(outcome, devices)
}

/// The answer of trials: what they come to is put.
pub fn answer_try<S: Source, T: Sink, P: Port, R: Sink>(
    alloc: Global,
    task: &TryTask,
    devices: Devices<S, T, P>,
    report: &mut R,
) -> Answer<S, T, P>
    requires can { CanTry task.now.subject }
    ensures trials { (s : Shelved) → AreTrialsRun task.now (seen S.end T.end P.end devices)
        (sides s s (R.end report.old) (R.end report.new)) (told S.end T.end P.end result) }
    ensures status { result.status ≡ status_of result.outcome }
    ensures same { StaySame result.history devices result.devices }
{
    let outcome = put_try(alloc, report, task);
    still(outcome, devices)
}

/// The answer of a run that left this: its report is put, and its history is saved where a name is
/// given.
fn answer_of_ran<F: Shelf, S, T, P, R: Sink>(
    alloc: Global,
    save: &Option<Name>,
    head: &Head,
    ran: Ran<S, T, P>,
    report: &mut R,
    shelf: &mut F,
) -> Answer<S, T, P>
    requires head { IsHead head.now }
    ensures reports { (middle : Outcome) × ((between : End)
        × (PutsText (report_of ran.history.entries ran.points) ran.ending middle (R.end report.old)
        between
        × SavesBehind save.now (history_bytes head.now ran.history.entries) middle result.outcome
        (sides (F.seen shelf.old) (F.seen shelf.new) between (R.end report.new)))) }
    ensures answer { result ≡ record {
      status = status_of result.outcome;
      outcome = result.outcome;
      devices = ran.devices;
      history = Some ran.history;
      points = Some ran.points;
    } }
{
    let Ran {
        history,
        points,
        devices,
        ending,
    } = ran;
    let put = put_report(alloc, report, &history, &points, ending);
    let outcome = save_behind(alloc, save, head, &history, put, report, shelf);
    Answer {
        status: outcome.status(),
        outcome,
        devices,
        history: Some(history),
        points: Some(points),
    }
}

/// The answer of a run, or of the devices that came back since memory was wanting for its start.
fn answer_of_run<F: Shelf, S: Source, T: Sink, P: Port, R: Sink>(
    alloc: Global,
    start: &Start,
    head: &Head,
    ran: Result<Ran<S, T, P>, Devices<S, T, P>>,
    report: &mut R,
    shelf: &mut F,
) -> Answer<S, T, P>
    requires head { IsHead head.now }
    ensures run { (devices : Devices S T P) → RunsOn S.end T.end P.end start.now devices ran
        → head.now ≡ head_of start.now (length devices.ports.items)
        → IsRunOn start.now (seen S.end T.end P.end devices)
        (sides (F.seen shelf.old) (F.seen shelf.new) (R.end report.old) (R.end report.new))
        (told S.end T.end P.end result) }
    ensures status { result.status ≡ status_of result.outcome }
    ensures same { (devices : Devices S T P) → RunsOn S.end T.end P.end start.now devices ran
        → StaySame result.history devices result.devices }
{
    match ran {
        Err(devices) => answer_wanting(devices, report),
        Ok(ran) => answer_of_ran(alloc, &start.save, head, ran, report, shelf),
    }
}

/// Runs what was loaded on the devices, on one thread.
pub fn answer_run<F: Shelf, S: Source, T: Sink, P: Port, R: Sink>(
    alloc: Global,
    start: &Start,
    devices: Devices<S, T, P>,
    report: &mut R,
    shelf: &mut F,
) -> Answer<S, T, P>
    requires can { CanRun false start.now }
    requires open { AllOpen (seen S.end T.end P.end devices) }
    ensures run { IsRunOn start.now (seen S.end T.end P.end devices)
        (sides (F.seen shelf.old) (F.seen shelf.new) (R.end report.old) (R.end report.new))
        (told S.end T.end P.end result) }
    ensures status { result.status ≡ status_of result.outcome }
    ensures same { StaySame result.history devices result.devices }
{
    let head = start.head(devices.ports.len() as u64);
    let ran = run(alloc, start, devices);
    answer_of_run(alloc, start, &head, ran, report, shelf)
}

/// Runs what was loaded on the devices, where there are threads.
pub fn answer_run_on_threads<
    H: Threads + Wait + Sync,
    F: Shelf,
    S: Source + Send,
    T: Sink + Send,
    P: Port + Send,
    R: Sink,
    D: Door,
>(
    rt: &H,
    alloc: Global,
    start: &Start,
    devices: Devices<S, T, P>,
    report: &mut R,
    shelf: &mut F,
    door: &D,
) -> Answer<S, T, P>
    requires can { CanRun true start.now }
    requires open { AllOpen (seen S.end T.end P.end devices) }
    ensures run { IsRunOn start.now (seen S.end T.end P.end devices)
        (sides (F.seen shelf.old) (F.seen shelf.new) (R.end report.old) (R.end report.new))
        (told S.end T.end P.end result) }
    ensures status { result.status ≡ status_of result.outcome }
    ensures same { StaySame result.history devices result.devices }
{
    let head = start.head(devices.ports.len() as u64);
    let ran = run_on_threads(rt, alloc, start, devices, door);
    answer_of_run(alloc, start, &head, ran, report, shelf)
}

/// The answer of the run of the load of this number with so many bytes of input: its summary is
/// put, and the devices that were handed in stay as they are.
fn answer_of_load<S, T, P, R: Sink>(
    alloc: Global,
    number: u64,
    bytes: u64,
    ran: LoadRan,
    devices: Devices<S, T, P>,
    report: &mut R,
) -> Answer<S, T, P>
    ensures puts { PutsText (summary_of number bytes ran.devices.out.given ran.history.entries)
        ran.ending result.outcome (R.end report.old) (R.end report.new) }
    ensures answer { result ≡ record {
      status = status_of result.outcome;
      outcome = result.outcome;
      devices = devices;
      history = Some ran.history;
      points = Some ran.points;
    } }
{
    let Ran {
        history,
        points,
        devices: own,
        ending,
    } = ran;
    let outcome = put_summary(
        alloc,
        report,
        number,
        bytes,
        own.out.given(),
        &history,
        ending,
    );
    Answer {
        status: outcome.status(),
        outcome,
        devices,
        history: Some(history),
        points: Some(points),
    }
}

/// Runs a load on devices of its own.
pub fn answer_load<S: Source, T: Sink, P: Port, R: Sink>(
    alloc: Global,
    load: LoadTask,
    devices: Devices<S, T, P>,
    report: &mut R,
) -> Answer<S, T, P>
    requires can { CanRun false load.start }
    ensures run { (s : Shelved) → IsLoadRun load (seen S.end T.end P.end devices)
        (sides s s (R.end report.old) (R.end report.new)) (told S.end T.end P.end result) }
    ensures status { result.status ≡ status_of result.outcome }
    ensures same { StaySame result.history devices result.devices }
{
    let number = load.number;
    let bytes = load.input.items().len() as u64;
    match run_load(alloc, load) {
        Err(_) => answer_wanting(devices, report),
        Ok(ran) => answer_of_load(alloc, number, bytes, ran, devices, report),
    }
}
