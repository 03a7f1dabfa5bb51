ghost use Rattle.std.specs.Prelude.{◌≡◌, IfOk, false};
ghost use Rattle.program_words.specs.Ranges.{IsInRange};
ghost use Rattle.program_words.specs.Words.{texts};
ghost use Rattle.rescue_run.specs.Outcomes.{of_words_fault};
ghost use Rattle.rescue_run.specs.Prepares.{AuditsFiles, ListsFile, Prepares, PreparesCommand, PreparesCounted, StartsFiles};
ghost use Rattle.rescue_run.specs.Reads.{Follows};
ghost use Rattle.rescue_run.specs.Tasks.{is_threaded, runs_threads, CanStart};
ghost use Rattle.rescue_run.specs.Words.{lacks_threads, needs_threads, ports_named, IsWithin};

use crate::files::Files;
use crate::further::{FurtherNames, load_further, room_for};
use crate::load::prepare_load;
use crate::loading::{load_files, load_symbols};
use crate::outcome::Outcome;
use crate::refusal::Refusal;
use crate::setup::{Schedule, Setup};
use crate::start::Start;
use crate::task::{AuditTask, Task};
use crate::trying::{TrySetup, prepare_try};
use edge_ports::Shelf;
use guest_words::Name;
use program_words::{Command, WordFault, WordsFault, needs_threads, read_words};
use std::alloc::Global;

/// Whether the command is run on threads.
fn wants_threads(words: &[String]) -> bool
    ensures value { result ≡ needs_threads (texts words.now) }
{
    needs_threads(words)
}

/// Whether the command is run on threads, and there are none.
fn lacks_threads(threads: bool, words: &[String]) -> bool
    ensures value { result ≡ lacks_threads threads (texts words.now) }
{
    !threads && wants_threads(words)
}

/// Why nothing is done for words that give no command.
fn refusal(fault: WordsFault) -> Refusal
    ensures value { result ≡ of_words_fault fault }
{
    match fault {
        WordsFault::Words(fault) => Refusal::of(Outcome::Words(fault)),
        WordsFault::Memory => Refusal::of(Outcome::Memory),
    }
}

/// How many ports a command opens.
fn named_ports(command: &Command) -> u64
    ensures value { result ≡ ports_named command.now }
{
    match *command {
        Command::Run { ports, .. } | Command::Alone { ports, .. } => ports,
        Command::List { .. }
        | Command::Load { .. }
        | Command::Audit { .. }
        | Command::Try { .. }
        | Command::Help
        | Command::Version => 0,
    }
}

/// The run of what the files give, with this setup.
fn prepare_run<F: Shelf>(
    alloc: Global,
    files: Files,
    setup: Setup,
    save: Option<Name>,
    shelf: &mut F,
) -> Result<Task, Refusal>
    requires within { IsWithin setup }
    ensures starts { StartsFiles files setup save (F.seen shelf.old) (F.seen shelf.new) result }
    ensures can { IfOk result (CanStart (is_threaded setup.schedule)) }
    ensures follows { Follows (F.seen shelf.old) (F.seen shelf.new) }
{
    let loaded = load_files(alloc, &files, shelf)?;
    Ok(Task::Run(Start {
        loaded,
        setup,
        save,
    }))
}

/// The list of the symbols of a program.
fn prepare_list<F: Shelf>(alloc: Global, program: Name, shelf: &mut F) -> Result<Task, Refusal>
    ensures lists { ListsFile program (F.seen shelf.old) (F.seen shelf.new) result }
    ensures can { IfOk result (CanStart false) }
    ensures follows { Follows (F.seen shelf.old) (F.seen shelf.new) }
{
    let listing = load_symbols(alloc, &program, shelf)?;
    Ok(Task::List(listing))
}

/// The audit of a history. The room for the files of its ports is made before any is asked for.
fn prepare_audit<F: Shelf>(
    alloc: Global,
    files: Files,
    names: &FurtherNames,
    shelf: &mut F,
) -> Result<Task, Refusal>
    ensures audits { AuditsFiles files names.now (F.seen shelf.old) (F.seen shelf.new) result }
    ensures can { IfOk result (CanStart false) }
    ensures follows { Follows (F.seen shelf.old) (F.seen shelf.new) }
{
    let room = room_for(alloc, names.ports.items())?;
    let loaded = load_files(alloc, &files, shelf)?;
    let further = load_further(alloc, names, room, shelf)?;
    Ok(Task::Audit(AuditTask {
        loaded,
        history: further.history,
        files: further.files,
    }))
}

/// What a command asks for, or why nothing is done.
fn prepare_command<F: Shelf>(
    alloc: Global,
    command: Command,
    shelf: &mut F,
) -> Result<Task, Refusal>
    requires range { IsInRange command }
    ensures prepares { PreparesCommand command (F.seen shelf.old) (F.seen shelf.new) result }
    ensures can { IfOk result (CanStart (runs_threads command)) }
    ensures follows { Follows (F.seen shelf.old) (F.seen shelf.new) }
{
    match command {
        Command::Run {
            points,
            harts,
            budget,
            save,
            program,
            ..
        } => {
            let setup = Setup {
                harts,
                budget,
                schedule: Schedule::Workers,
            };
            prepare_run(alloc, Files { program, points }, setup, save, shelf)
        }
        Command::Alone {
            points,
            harts,
            budget,
            seed,
            save,
            program,
            ..
        } => {
            let setup = Setup {
                harts,
                budget,
                schedule: Schedule::Lone { seed },
            };
            prepare_run(alloc, Files { program, points }, setup, save, shelf)
        }
        Command::List { program } => prepare_list(alloc, program, shelf),
        Command::Load { number } => prepare_load(alloc, number),
        Command::Audit {
            points,
            history,
            program,
            input,
            out,
            err,
            ports,
        } => {
            let names = FurtherNames {
                history,
                input,
                out,
                err,
                ports,
            };
            prepare_audit(alloc, Files { program, points }, &names, shelf)
        }
        Command::Try {
            harts,
            budget,
            seed,
            returns,
            program,
            input,
        } => {
            let setup = TrySetup {
                harts,
                budget,
                seed,
                returns,
            };
            prepare_try(alloc, setup, &program, &input, shelf)
        }
        Command::Help => Err(Refusal::of(Outcome::Words(WordFault::UnknownCommand))),
        Command::Version => Err(Refusal::of(Outcome::Words(WordFault::UnknownCommand))),
    }
}

/// What a command asks for with so many ports that are handed in, or why nothing is done.
fn prepare_counted<F: Shelf>(
    alloc: Global,
    command: Command,
    handed: u64,
    shelf: &mut F,
) -> Result<Task, Refusal>
    requires range { IsInRange command }
    ensures prepares { PreparesCounted command handed (F.seen shelf.old) (F.seen shelf.new)
        result }
    ensures can { IfOk result (CanStart (runs_threads command)) }
    ensures follows { Follows (F.seen shelf.old) (F.seen shelf.new) }
{
    let named = named_ports(&command);
    if named == handed {
        prepare_command(alloc, command, shelf)
    } else {
        Err(Refusal::of(Outcome::PortCount { named, handed }))
    }
}

/// What these words ask for with so many ports that are handed in, or why nothing is done.
/// `threads` says whether the caller has threads: a command on threads is refused where there are
/// none, before its other words are read.
pub fn prepare<F: Shelf>(
    alloc: Global,
    threads: bool,
    words: &[String],
    handed: u64,
    shelf: &mut F,
) -> Result<Task, Refusal>
    ensures prepares { Prepares threads (texts words.now) handed (F.seen shelf.old)
        (F.seen shelf.new) result }
    ensures can { IfOk result (CanStart threads) }
    ensures follows { Follows (F.seen shelf.old) (F.seen shelf.new) }
{
    if lacks_threads(threads, words) {
        return Err(Refusal::of(Outcome::Words(WordFault::Threads)));
    }
    match read_words(alloc, words) {
        Ok(command) => prepare_counted(alloc, command, handed, shelf),
        Err(fault) => Err(refusal(fault)),
    }
}
