//! The top call on ports over files, which are opened when a run starts.
ghost use Rattle.std.specs.Prelude.{◌≡◌, ◌≤◌, [], IsNone, false, length, map, true, vec_capacity};
ghost use Rattle.edge_ports.specs.Adapters.{file_port_end};
ghost use Rattle.edge_ports.specs.End.{untold};
ghost use Rattle.program_words.specs.Words.{texts};
ghost use Rattle.rescue_run.specs.Headline.{Headline};
ghost use Rattle.rescue_run.specs.Top.{handed, told};

use crate::answer::Answer;
use crate::prepare::prepare;
use crate::refusal::Refusal;
use crate::task::Task;
use crate::tops::{answer, answer_on_threads, connect};
use edge_ports::{FilePort, Shelf, Sink, Source};
use program_words::PortName;
use std::alloc::Global;
use std::io::{Read, Write};
use std::rt::Files;
use std::sync::Wait;
use std::thread::Threads;
use stop_gate::Door;

fn name_count(names: &[PortName]) -> u64
    ensures { result ≡ length names.now }
{
    names.len() as u64
}

/// A port over the files of each name, in the room that was made for them. Without the system's
/// files none is opened.
fn file_ports<X: Read + Write + Drop, R: Files<File = X>>(
    files: Option<&R>,
    names: &[PortName],
    room: Vec<FilePort<X, X>>,
) -> Vec<FilePort<X, X>>
    requires none { room.items ≡ [] }
    requires room { length names.now ≤ vec_capacity room }
    ensures fresh { map file_port_end result.items ≡ map (λ _. untold 0 0) names.now }
{
    let mut ports = room;
    for name in names {
        ports.push_reserved(match files {
            Some(files) => FilePort::open(files, name.input.items(), name.output.items()),
            None => FilePort::new(None, None),
        });
    }
    ports
}

/// The system's files, where a program is run on the devices that are handed in.
fn files_for<'a, R: Files>(files: &'a R, prepared: &Result<Task, Refusal>) -> Option<&'a R> {
    match prepared {
        Ok(Task::Run(_)) => Some(files),
        _ => None,
    }
}

/// Does what [`alone_top`](crate::alone_top) does, on ports over the files of these names, which are
/// opened once nothing refuses the command. It always returns.
pub fn alone_on_files<
    F: Shelf,
    S: Source,
    T: Sink,
    X: Read + Write + Drop,
    R: Files<File = X>,
    K: Sink,
>(
    alloc: Global,
    words: &[String],
    shelf: &mut F,
    input: S,
    out: T,
    err: T,
    files: &R,
    names: &[PortName],
    room: Vec<FilePort<X, X>>,
    report: &mut K,
) -> Answer<S, T, FilePort<X, X>>
    requires none { room.items ≡ [] }
    requires room { length names.now ≤ vec_capacity room }
    ensures headline { Headline false (texts words.now) (F.seen shelf.old) (F.seen shelf.new)
        (handed S.end T.end (λ _. untold 0 0) input out err names.now)
        (K.end report.old) (K.end report.new)
        (told S.end T.end file_port_end result) }

    // Where no machine was started, the streams are those that were handed in.
    ensures same { IsNone result.history
        → (result.devices.input ≡ input) × (result.devices.out ≡ out)
        × (result.devices.err ≡ err) }
{
    let prepared = prepare(alloc, false, words, name_count(names), shelf);
    let ports = file_ports(files_for(files, &prepared), names, room);
    let devices = connect(input, out, err, ports);
    answer(alloc, words, prepared, devices, report, shelf)
}

/// Does what [`top`](crate::top) does, on ports over the files of these names. They are opened
/// once nothing refuses the command, so that a refused one leaves them as they are.
pub fn top_on_files<
    H: Threads + Wait + Sync,
    F: Shelf,
    S: Source + Send,
    T: Sink + Send,
    X: Read + Write + Drop + Send,
    R: Files<File = X>,
    K: Sink,
    D: Door,
>(
    rt: &H,
    alloc: Global,
    words: &[String],
    shelf: &mut F,
    input: S,
    out: T,
    err: T,
    files: &R,
    names: &[PortName],
    room: Vec<FilePort<X, X>>,
    report: &mut K,
    door: &D,
) -> Answer<S, T, FilePort<X, X>>
    requires none { room.items ≡ [] }
    requires room { length names.now ≤ vec_capacity room }
    ensures headline { Headline true (texts words.now) (F.seen shelf.old) (F.seen shelf.new)
        (handed S.end T.end (λ _. untold 0 0) input out err names.now)
        (K.end report.old) (K.end report.new)
        (told S.end T.end file_port_end result) }

    // Where no machine was started, the streams are those that were handed in.
    ensures same { IsNone result.history
        → (result.devices.input ≡ input) × (result.devices.out ≡ out)
        × (result.devices.err ≡ err) }
{
    let prepared = prepare(alloc, true, words, name_count(names), shelf);
    let ports = file_ports(files_for(files, &prepared), names, room);
    let devices = connect(input, out, err, ports);
    answer_on_threads(rt, alloc, words, prepared, devices, report, shelf, door)
}
