//! The further files of an audit, behind the program and the rescue file.
ghost use Rattle.std.specs.Prelude.{◌≡◌, ◌≤◌, ◌<◌, ◌+◌, ◌^◌, [], ◌∷◌, IfErr, IfOk, OnOk, length, vec_capacity};
ghost use Rattle.rescue_run.specs.Further.{device_files, port_names};
ghost use Rattle.rescue_run.specs.ReadsFiles.{further_bytes, port_bytes, ReadsTo};
ghost use Rattle.rescue_run.specs.Refusals.{wanting};
ghost use Rattle.rescue_run.specs.Words.{further_of};
ghost use Rattle.rescue_run.specs.declared.outcome.Which.TheVariants.{Device};

use crate::outcome::{Outcome, Which};
use crate::refusal::Refusal;
use edge_ports::Shelf;
use guest_words::{Bytes, Name};
use program_words::{PortName, PortNames};
use rescue_audit::{AuditFiles, PortFile, PortFiles};
use std::alloc::Global;

/// The names of a history file and of the files of its devices.
#[derive(Drop)]
pub struct FurtherNames {
    pub history: Name,
    pub input: Name,
    pub out: Name,
    pub err: Name,
    pub ports: PortNames,
}

/// What those files hold.
#[derive(Drop)]
pub struct Further {
    pub history: Bytes,
    pub files: AuditFiles,
}

/// The bytes of the file of a name.
fn load_one<F: Shelf>(
    alloc: Global,
    which: Which,
    name: &Name,
    shelf: &mut F,
) -> Result<Bytes, Refusal>
    ensures reads { ReadsTo (λ bytes. bytes ∷ []) ((which, name.now) ∷ []) (F.seen shelf.old)
        (F.seen shelf.new) result }
{
    match shelf.load(alloc, name.items(), which.limit()) {
        Ok(bytes) => Ok(bytes),
        Err(fault) => Err(which.refusal(fault)),
    }
}

/// The files of a port, the first of which has this number.
fn load_port<F: Shelf>(
    alloc: Global,
    number: u64,
    port: &PortName,
    shelf: &mut F,
) -> Result<PortFile, Refusal>
    requires few { number + 1 < 2 ^ 64 }
    ensures reads { ReadsTo (λ file. file.input ∷ file.output ∷ [])
        ((Device number, port.now.input) ∷ (Device (number + 1), port.now.output) ∷ [])
        (F.seen shelf.old) (F.seen shelf.new) result }
{
    let input = load_one(alloc, Which::Device { number }, &port.input, shelf)?;
    let output = load_one(
        alloc,
        Which::Device { number: number + 1 },
        &port.output,
        shelf,
    )?;
    Ok(PortFile { input, output })
}

/// The room for the files of these ports. There is none for so many that no command line has them.
pub fn room_for(alloc: Global, ports: &[PortName]) -> Result<Vec<PortFile>, Refusal>
    ensures none { IfOk result (λ room. room.items ≡ []) }
    ensures room { IfOk result (λ room. length ports.now ≤ vec_capacity room) }
    ensures few { OnOk result (length ports.now < 2 ^ 32) }
    ensures cause { IfErr result (λ refusal. refusal ≡ wanting) }
{
    if u32::try_from(ports.len()).is_err() {
        return Err(Refusal::of(Outcome::Memory));
    }
    Ok(Vec::with_capacity(alloc, ports.len())?)
}

/// The files of the ports, in the room that was made for them.
fn load_ports<F: Shelf>(
    alloc: Global,
    ports: &[PortName],
    room: Vec<PortFile>,
    shelf: &mut F,
) -> Result<PortFiles, Refusal>
    requires none { room.items ≡ [] }
    requires room { length ports.now ≤ vec_capacity room }
    requires few { length ports.now < 2 ^ 32 }
    ensures reads { ReadsTo (λ files. port_bytes files) (device_files 3 (port_names ports.now))
        (F.seen shelf.old) (F.seen shelf.new) result }
{
    let mut files = room;
    let mut number = 3;
    for port in ports {
        let file = load_port(alloc, number, port, shelf)?;
        files.push_reserved(file);
        number += 2;
    }
    Ok(PortFiles::of(files))
}

/// The further files of an audit, one after the other.
pub fn load_further<F: Shelf>(
    alloc: Global,
    names: &FurtherNames,
    room: Vec<PortFile>,
    shelf: &mut F,
) -> Result<Further, Refusal>
    requires none { room.items ≡ [] }
    requires room { length names.now.ports ≤ vec_capacity room }
    requires few { length names.now.ports < 2 ^ 32 }
    ensures reads { ReadsTo further_bytes (further_of names.now) (F.seen shelf.old)
        (F.seen shelf.new) result }
{
    let history = load_one(alloc, Which::History, &names.history, shelf)?;
    let input = load_one(alloc, Which::Device { number: 0 }, &names.input, shelf)?;
    let out = load_one(alloc, Which::Device { number: 1 }, &names.out, shelf)?;
    let err = load_one(alloc, Which::Device { number: 2 }, &names.err, shelf)?;
    let ports = load_ports(alloc, names.ports.items(), room, shelf)?;
    let files = AuditFiles {
        input,
        out,
        err,
        ports,
    };
    Ok(Further { history, files })
}
