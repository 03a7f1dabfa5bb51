ghost use Rattle.std.specs.Prelude.{◌≡◌, IfOk, codes};
ghost use Rattle.clap.specs.Words.{found_of, rows_of};
ghost use Rattle.program_words.specs.Fits.{Fit, FitLimits, FitSeed};
ghost use Rattle.program_words.specs.Words.{budget_in, command_in, harts_in, opened_ports, seed_in};
ghost use Rattle.program_words.specs.declared.command_kind.CommandKind.TheVariants as kind;

use crate::command::Command;
use crate::command_kind::CommandKind;
use crate::limits::{DEFAULT_BUDGET, DEFAULT_HARTS, DEFAULT_RETURNS, DEFAULT_SEED};
use crate::port_name::PortNames;
use crate::values::{number_of, option_of, port_count, ports_of, signed_of, text_of};
use clap::ArgMatches;
use std::alloc::{AllocError, Global};

/// The harts that are asked for.
fn harts_of(matches: &ArgMatches<'_>) -> u8
    requires fits { FitLimits (rows_of (found_of matches.now)) }
    ensures value { result ≡ harts_in (rows_of (found_of matches.now)) }
{
    match number_of(matches, "harts") {
        Some(harts) => harts as u8,
        None => DEFAULT_HARTS,
    }
}

/// The budget that is asked for.
fn budget_of(matches: &ArgMatches<'_>) -> u64
    requires fits { FitLimits (rows_of (found_of matches.now)) }
    ensures value { result ≡ budget_in (rows_of (found_of matches.now)) }
{
    number_of(matches, "budget").unwrap_or(DEFAULT_BUDGET)
}

/// The seed that is asked for.
fn seed_of(matches: &ArgMatches<'_>) -> u64
    requires fits { FitSeed (rows_of (found_of matches.now)) }
    ensures value { result ≡ seed_in (rows_of (found_of matches.now)) }
{
    number_of(matches, "seed").unwrap_or(DEFAULT_SEED)
}

fn run(alloc: Global, matches: &ArgMatches<'_>) -> Result<Command, AllocError>
    requires fits { Fit kind.Run (rows_of (found_of matches.now)) }
    ensures ok { IfOk result (λ c. c ≡ command_in kind.Run (rows_of (found_of matches.now))) }
{
    Ok(Command::Run {
        points: option_of(alloc, matches, "points")?,
        harts: harts_of(matches),
        budget: budget_of(matches),
        save: option_of(alloc, matches, "save")?,
        program: text_of(alloc, matches, "program")?,
        ports: port_count(matches),
    })
}

fn alone(alloc: Global, matches: &ArgMatches<'_>) -> Result<Command, AllocError>
    requires fits { Fit kind.Alone (rows_of (found_of matches.now)) }
    ensures ok { IfOk result (λ c. c ≡ command_in kind.Alone (rows_of (found_of matches.now))) }
{
    Ok(Command::Alone {
        points: option_of(alloc, matches, "points")?,
        harts: harts_of(matches),
        budget: budget_of(matches),
        seed: seed_of(matches),
        save: option_of(alloc, matches, "save")?,
        program: text_of(alloc, matches, "program")?,
        ports: port_count(matches),
    })
}

fn audit(alloc: Global, matches: &ArgMatches<'_>) -> Result<Command, AllocError>
    requires fits { Fit kind.Audit (rows_of (found_of matches.now)) }
    ensures ok { IfOk result (λ c. c ≡ command_in kind.Audit (rows_of (found_of matches.now))) }
{
    Ok(Command::Audit {
        points: option_of(alloc, matches, "points")?,
        history: text_of(alloc, matches, "history")?,
        program: text_of(alloc, matches, "program")?,
        input: text_of(alloc, matches, "input")?,
        out: text_of(alloc, matches, "out")?,
        err: text_of(alloc, matches, "err")?,
        ports: ports_of(alloc, matches)?,
    })
}

fn try_points(alloc: Global, matches: &ArgMatches<'_>) -> Result<Command, AllocError>
    requires fits { Fit kind.Try (rows_of (found_of matches.now)) }
    ensures ok { IfOk result (λ c. c ≡ command_in kind.Try (rows_of (found_of matches.now))) }
{
    Ok(Command::Try {
        harts: harts_of(matches),
        budget: budget_of(matches),
        seed: seed_of(matches),
        returns: signed_of(matches, "returns").unwrap_or(DEFAULT_RETURNS),
        program: text_of(alloc, matches, "program")?,
        input: text_of(alloc, matches, "input")?,
    })
}

/// The command of a kind.
pub fn command(
    alloc: Global,
    kind: CommandKind,
    matches: &ArgMatches<'_>,
) -> Result<Command, AllocError>
    requires fits { Fit kind (rows_of (found_of matches.now)) }
    ensures ok { IfOk result (λ c. c ≡ command_in kind (rows_of (found_of matches.now))) }
{
    match kind {
        CommandKind::Run => run(alloc, matches),
        CommandKind::Alone => alone(alloc, matches),
        CommandKind::List => Ok(Command::List {
            program: text_of(alloc, matches, "program")?,
        }),
        CommandKind::Load => Ok(Command::Load {
            number: number_of(matches, "number").unwrap(),
        }),
        CommandKind::Audit => audit(alloc, matches),
        CommandKind::Try => try_points(alloc, matches),
        CommandKind::Help => Ok(Command::Help),
        CommandKind::Version => Ok(Command::Version),
    }
}

/// The files of the ports that a command opens.
pub fn opened_ports(
    alloc: Global,
    kind: CommandKind,
    matches: &ArgMatches<'_>,
) -> Result<PortNames, AllocError>
    ensures ok { IfOk result (λ names. names ≡ opened_ports kind (rows_of (found_of matches.now))) }
{
    match kind {
        CommandKind::Run | CommandKind::Alone => ports_of(alloc, matches),
        _ => Ok(PortNames::of(Vec::new(alloc))),
    }
}
