//! Points that are tried on a program: how that is prepared, and what is put.
ghost use Rattle.std.specs.Prelude.{◌≡◌, IfErr, IfOk, OnOk, false, length, string_bytes};
ghost use Rattle.elf_symbols.specs.SymbolTable.{symbols_of};
ghost use Rattle.guest_words.specs.Image.{IsLoadList};
ghost use Rattle.rescue_report.specs.Lines.{end_line};
ghost use Rattle.rescue_run.specs.Loading.{image_of, IsNamed};
ghost use Rattle.rescue_run.specs.Puts.{PutsOwn};
ghost use Rattle.rescue_run.specs.Reads.{Follows};
ghost use Rattle.rescue_run.specs.Tasks.{CanStart};
ghost use Rattle.rescue_run.specs.Tries.{IsTryTold, PutsTries};
ghost use Rattle.rescue_run.specs.Trying.{task_of, IsSetUp, IsUnlisted, TriesFiles, TriesProgram};
ghost use Rattle.rescue_run.specs.declared.outcome.Outcome.TheVariants.{NoFault, Tried};
ghost use Rattle.rescue_trial.specs.TrialText.{good_of, trial_text_of};
ghost use Rattle.trial_runs.specs.Subjects.{CanTry};

use crate::listing::Listing;
use crate::loading::{accept, check_symbols};
use crate::outcome::{Outcome, Which};
use crate::put::{put_memory, put_own};
use crate::refusal::Refusal;
use crate::task::{Task, TryTask};
use edge_ports::{Shelf, Sink};
use elf_symbols::Symbols;
use guest_words::{Bytes, Ending, Fault, Image, MemoryWant, Name};
use rescue_report::put_hexadecimal;
use rescue_trial::{Trials, trial_text};
use std::alloc::Global;
use trial_runs::{Subject, Tries, try_points};

/// How the runs are made on which points are tried, and what a call returns there that is taken
/// back.
#[derive(Clone, Copy)]
pub struct TrySetup {
    /// 1 to 64.
    pub harts: u8,
    /// Steps, 1 to 20,000,000.
    pub budget: u64,
    pub seed: u64,
    pub returns: i64,
}

/// The image of a program that breaks no rule, and whose symbols break none.
fn listed_image(alloc: Global, program: &[u8]) -> Result<Image, Refusal>
    ensures ok { IfOk result (λ image. image ≡ image_of program.now) }
    ensures list { IfOk result (λ image. IsLoadList image.loads) }
    ensures kept { OnOk result (IsNamed program.now) }
    ensures cause { IfErr result (IsUnlisted program.now) }
{
    match accept(alloc, program) {
        Ok(image) => match check_symbols(program) {
            Ok(()) => Ok(image),
            Err(refusal) => Err(refusal),
        },
        Err(refusal) => Err(refusal),
    }
}

/// A program with its symbols and the input of its runs.
fn try_task(setup: TrySetup, image: Image, program: Bytes, input: Bytes) -> TryTask
    requires named { IsNamed program }
    ensures value { result ≡ task_of setup image (symbols_of program) input }
{
    let TrySetup {
        harts,
        budget,
        seed,
        returns,
    } = setup;
    TryTask {
        listing: Listing::of(program),
        subject: Subject {
            image,
            harts,
            budget,
            seed,
            input,
        },
        returns,
    }
}

/// Trials of a program that was loaded, on the input of a name. The shelf is asked for that where
/// neither the program nor its symbols are refused.
fn prepare_trials<F: Shelf>(
    alloc: Global,
    setup: TrySetup,
    program: Bytes,
    input: &Name,
    shelf: &mut F,
) -> Result<Task, Refusal>
    requires set { IsSetUp setup }
    ensures tries { TriesProgram setup program input.now (F.seen shelf.old) (F.seen shelf.new)
        result }
    ensures can { IfOk result (CanStart false) }
    ensures follows { Follows (F.seen shelf.old) (F.seen shelf.new) }
{
    let which = Which::Device { number: 0 };
    match listed_image(alloc, program.items()) {
        Ok(image) => match shelf.load(alloc, input.items(), which.limit()) {
            Ok(input) => Ok(Task::Try(try_task(setup, image, program, input))),
            Err(fault) => Err(which.refusal(fault)),
        },
        Err(refusal) => Err(refusal),
    }
}

/// Trials of the program of a name, on the input of a name.
pub fn prepare_try<F: Shelf>(
    alloc: Global,
    setup: TrySetup,
    program: &Name,
    input: &Name,
    shelf: &mut F,
) -> Result<Task, Refusal>
    requires set { IsSetUp setup }
    ensures tries { TriesFiles setup program.now input.now (F.seen shelf.old) (F.seen shelf.new)
        result }
    ensures can { IfOk result (CanStart false) }
    ensures follows { Follows (F.seen shelf.old) (F.seen shelf.new) }
{
    match shelf.load(alloc, program.items(), Which::Program.limit()) {
        Ok(program) => prepare_trials(alloc, setup, program, input, shelf),
        Err(fault) => Err(Which::Program.refusal(fault)),
    }
}

/// The line of a run without points that ends by no fault.
fn end_text(alloc: Global, ending: Ending) -> Result<String, MemoryWant>
    ensures ok { IfOk result (λ text. string_bytes text ≡ end_line ending) }
{
    match ending {
        Ending::Exit { code, .. } => Ok(format!(in alloc; "end exit {code}\n")?),
        Ending::Fault { hart, fault } => {
            let name = fault.name.name();
            let mut text = format!(in alloc; "end fault {name} hart {hart} pc ")?;
            put_hexadecimal(&mut text, fault.pc)?;
            text.push_str("\n")?;
            Ok(text)
        }
        Ending::Stuck => Ok(String::from_str(alloc, "end stuck\n")?),
        Ending::Budget => Ok(String::from_str(alloc, "end budget\n")?),
    }
}

/// Puts how the run without points ended, which met no fault.
fn put_end<R: Sink>(alloc: Global, report: &mut R, ending: Ending) -> Outcome
    ensures puts { PutsOwn (end_line ending) (NoFault ending) result (R.end report.old)
        (R.end report.new) }
{
    match end_text(alloc, ending) {
        Ok(text) => put_own(report, text.as_bytes(), Outcome::NoFault(ending)),
        Err(_) => put_memory(report),
    }
}

/// Puts the trials of the call path of a fault.
fn put_trials<R: Sink>(
    alloc: Global,
    report: &mut R,
    fault: &Fault,
    hart: u8,
    symbols: &Symbols,
    trials: &Trials,
) -> Outcome
    ensures puts { PutsOwn (trial_text_of fault.now hart symbols.now trials.now)
        (Tried (length (good_of trials.now))) result (R.end report.old) (R.end report.new) }
{
    match trial_text(alloc, fault, hart, symbols, trials) {
        Ok(text) => {
            let good = trials.good() as u64;
            put_own(report, text.items(), Outcome::Tried { good })
        }
        Err(_) => put_memory(report),
    }
}

/// Puts what trials came to.
fn put_tries<R: Sink>(alloc: Global, report: &mut R, symbols: &Symbols, tries: &Tries) -> Outcome
    ensures puts { PutsTries symbols.now tries.now result (R.end report.old) (R.end report.new) }
{
    match tries {
        Tries::Faulted {
            hart,
            fault,
            trials,
        } => put_trials(alloc, report, fault, *hart, symbols, trials),
        Tries::Ended(ending) => put_end(alloc, report, *ending),
    }
}

/// Runs a program without points, and where that ends by a fault, with each function on its call
/// path as the only point; puts what that comes to, and answers what the command comes to.
pub fn put_try<R: Sink>(alloc: Global, report: &mut R, task: &TryTask) -> Outcome
    requires can { CanTry task.now.subject }
    ensures told { IsTryTold task.now result (R.end report.old) (R.end report.new) }
{
    let symbols = task.listing.symbols();
    match try_points(alloc, &task.subject, &symbols, task.returns) {
        Ok(tries) => put_tries(alloc, report, &symbols, &tries),
        Err(_) => put_memory(report),
    }
}
