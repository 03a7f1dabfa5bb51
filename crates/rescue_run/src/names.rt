//! The names of the files of a command.
ghost use Rattle.std.specs.Prelude.{◌≡◌, [], unwrap_or};
ghost use Rattle.rescue_run.specs.Names.{device_name, history_name, name_of, points_name, port_file, program_name};

use crate::outcome::Which;
use guest_words::Name;
use program_words::{Command, PortName};

/// The program's name; empty where the command has none.
fn program_name(command: &Command) -> &str
    ensures value { result.now ≡ program_name command.now }
{
    match command {
        Command::Run { program, .. }
        | Command::Alone { program, .. }
        | Command::List { program }
        | Command::Audit { program, .. }
        | Command::Try { program, .. } => program.items(),
        Command::Load { .. } | Command::Help | Command::Version => "",
    }
}

fn text_of(name: &Option<Name>) -> &str
    ensures value { result.now ≡ unwrap_or name.now [] }
{
    match name {
        Some(name) => name.items(),
        None => "",
    }
}

/// The rescue file's name; empty where none is named.
fn points_name(command: &Command) -> &str
    ensures value { result.now ≡ points_name command.now }
{
    match command {
        Command::Run { points, .. }
        | Command::Alone { points, .. }
        | Command::Audit { points, .. } => text_of(points),
        Command::List { .. }
        | Command::Load { .. }
        | Command::Try { .. }
        | Command::Help
        | Command::Version => "",
    }
}

/// The history file's name; empty where none is read.
fn history_name(command: &Command) -> &str
    ensures value { result.now ≡ history_name command.now }
{
    match command {
        Command::Audit { history, .. } => history.items(),
        Command::Run { .. }
        | Command::Alone { .. }
        | Command::List { .. }
        | Command::Load { .. }
        | Command::Try { .. }
        | Command::Help
        | Command::Version => "",
    }
}

/// The name at this place among the files of ports: of each its input, and then its output.
fn port_file(ports: &[PortName], number: u64) -> &str
    ensures value { result.now ≡ port_file ports.now number }
{
    match ports.get((number / 2) as usize) {
        Some(port) if number % 2 == 0 => port.input.items(),
        Some(port) => port.output.items(),
        None => "",
    }
}

/// The name of the file of the devices of this number; empty where the command reads none.
fn device_name(command: &Command, number: u64) -> &str
    ensures value { result.now ≡ device_name command.now number }
{
    match command {
        Command::Audit {
            input,
            out,
            err,
            ports,
            ..
        } => match number {
            0 => input.items(),
            1 => out.items(),
            2 => err.items(),
            _ => port_file(ports.items(), number - 3),
        },
        Command::Try { input, .. } => input.items(),
        Command::Run { .. }
        | Command::Alone { .. }
        | Command::List { .. }
        | Command::Load { .. }
        | Command::Help
        | Command::Version => "",
    }
}

/// The name of a file of a command; empty where the command has no such file.
pub fn name_of(command: &Command, which: Which) -> &str
    ensures value { result.now ≡ name_of command.now which }
{
    match which {
        Which::Program => program_name(command),
        Which::Points => points_name(command),
        Which::History => history_name(command),
        Which::Device { number } => device_name(command, number),
    }
}
