//! The program over the files and the streams of the system.
use crate::file_ports::{alone_on_files, top_on_files};
use crate::outcome::Outcome;
use crate::put::put_line;
use crate::shown::quoted;
use edge_ports::{FileShelf, Reason, Sink, Standard, StdSink, StdSource};
use guest_words::{MemoryWant, Name};
use program_words::{
    Command, PortNames, WordFault, WordsFault, help_text, needs_threads, port_names, read_words,
    report_file, report_to_out, version_text,
};
use std::alloc::Global;
use std::fs::File;
use std::io::{ErrorKind, Write};
use std::process::ExitCode;
use std::sync::Wait;
use std::thread::Threads;
use std::{env, fs, io};
use stop_gate::OpenDoor;

/// The status where a report, or another text in its place, can't be written.
const UNWRITTEN: u8 = 74;

/// Does what the words of the command line ask for, and answers the exit status. What the command
/// tells goes to the file that its words name for it, else to standard output where it is the
/// command's own output, and else to standard error.
///
/// `host` starts the threads of a command that needs some, and then it may wait forever.
pub fn run_program<H: Threads + Wait + Sync>(host: &H, rt: &HostRuntime) -> ExitCode {
    let _held = hold_streams(rt);
    match words_of(rt) {
        Ok(words) => {
            if let Some(status) = show(rt, &words) {
                return status;
            }
            match report_file(rt.alloc(), &words) {
                Ok(Some(name)) => run_reported(host, rt, &words, &name),
                _ => run_words(host, rt, &words, report_of(rt, &words)),
            }
        }
        Err(outcome) => refuse(rt, rt.stderr(), outcome),
    }
}

/// Puts the help or the version on standard output where the words ask for it, and answers the
/// exit status.
fn show(rt: &HostRuntime, words: &[String]) -> Option<ExitCode> {
    match read_words(rt.alloc(), words) {
        Ok(Command::Help) => match help_text(rt.alloc()) {
            Ok(text) => Some(put_shown(rt, text.items())),
            Err(_) => Some(refuse(rt, rt.stderr(), Outcome::Memory)),
        },
        Ok(Command::Version) => Some(put_shown(rt, version_text().as_bytes())),
        _ => None,
    }
}

fn put_shown(rt: &HostRuntime, text: &[u8]) -> ExitCode {
    match StdSink::new(rt.stdout()).put(text) {
        Ok(()) => ExitCode::SUCCESS,
        Err(_) => ExitCode::from(UNWRITTEN),
    }
}

/// Does what the words ask for. All that the command tells goes to the file of this name, which is
/// made, or emptied, before anything is done.
fn run_reported<H: Threads + Wait + Sync>(
    host: &H,
    rt: &HostRuntime,
    words: &[String],
    name: &Name,
) -> ExitCode {
    match File::create(rt, name.items()) {
        Ok(file) => run_words(host, rt, words, file),
        Err(error) => {
            let mut sink = StdSink::new(rt.stderr());
            let _ = sink.put(b"refused: report unwritable\n");
            if let Ok(hint) = unmade(rt.alloc(), name, &error) {
                let _ = sink.put(hint.as_bytes());
            }
            ExitCode::from(UNWRITTEN)
        }
    }
}

/// Why the file of a name can't be made.
fn unmade(alloc: Global, name: &Name, error: &io::Error) -> Result<String, MemoryWant> {
    let name = quoted(alloc, name.items())?;
    let why = match error.kind() {
        ErrorKind::NotFound => "no such folder",
        ErrorKind::PermissionDenied => Reason::Denied.text(),
        ErrorKind::IsADirectory => Reason::Folder.text(),
        _ => Reason::Other.text(),
    };
    Ok(format!(in alloc; "  {name}: {why}\n")?)
}

/// Does what [`run_program`] does. All that the command tells goes to `report`.
pub fn run_program_to<H: Threads + Wait + Sync>(
    host: &H,
    rt: &HostRuntime,
    report: Standard,
) -> ExitCode {
    let _held = hold_streams(rt);
    match words_of(rt) {
        Ok(words) => run_words(host, rt, &words, report),
        Err(outcome) => refuse(rt, report, outcome),
    }
}

/// A folder at the number of each standard stream that is closed, so that no other file gets it.
/// Reads and writes fail there, as they do at a closed stream.
fn hold_streams(rt: &HostRuntime) -> [io::Result<File>; 3] {
    [fs::open(rt, "/"), fs::open(rt, "/"), fs::open(rt, "/")]
}

/// The words behind the program's name.
fn words_of(rt: &HostRuntime) -> Result<Vec<String>, Outcome> {
    let mut words = Vec::new(rt.alloc());
    for word in env::args(rt).map_err(|error| unread(&error))?.skip(1) {
        if words.push(word).is_err() {
            return Err(Outcome::Memory);
        }
    }
    Ok(words)
}

/// What words come to that can't be read. One that isn't a text is no word of a command.
fn unread(error: &io::Error) -> Outcome {
    match error.kind() {
        ErrorKind::OutOfMemory => Outcome::Memory,
        _ => Outcome::Words(WordFault::Line),
    }
}

/// Where a command tells what it has to.
fn report_of(rt: &HostRuntime, words: &[String]) -> Standard {
    if report_to_out(words) {
        Standard::Out(rt.stdout())
    } else {
        Standard::Err(rt.stderr())
    }
}

/// Puts the line of an outcome, and that a word isn't a text, where that is why; and answers its
/// exit status.
fn refuse<W: Write + Drop>(rt: &HostRuntime, report: W, outcome: Outcome) -> ExitCode {
    let mut report = StdSink::new(report);
    let outcome = put_line(rt.alloc(), &mut report, outcome);
    if let Outcome::Words(_) = outcome {
        let _ = report.put(b"  a word isn't a text in UTF-8\n");
    }
    ExitCode::from(outcome.status())
}

/// Does what the words of a command ask for. The ports are those that the words name, and none
/// where they are refused.
fn run_words<H: Threads + Wait + Sync, W: Write + Drop>(
    host: &H,
    rt: &HostRuntime,
    words: &[String],
    report: W,
) -> ExitCode {
    let names = match port_names(rt.alloc(), words) {
        Ok(names) => names,
        Err(WordsFault::Words(_)) => PortNames::of(Vec::new(rt.alloc())),
        Err(WordsFault::Memory) => return refuse(rt, report, Outcome::Memory),
    };
    let Ok(ports) = Vec::with_capacity(rt.alloc(), names.items().len()) else {
        return refuse(rt, report, Outcome::Memory);
    };
    let shelf = &mut FileShelf::new(*rt);
    let input = StdSource::new(rt.stdin());
    let out = StdSink::new(Standard::Out(rt.stdout()));
    let err = StdSink::new(Standard::Err(rt.stderr()));
    let report = &mut StdSink::new(report);
    let (alloc, names) = (rt.alloc(), names.items());
    let answer = if needs_threads(words) {
        let door = &OpenDoor;
        top_on_files(
            host, alloc, words, shelf, input, out, err, rt, names, ports, report, door,
        )
    } else {
        alone_on_files(
            alloc, words, shelf, input, out, err, rt, names, ports, report,
        )
    };
    ExitCode::from(answer.status)
}
