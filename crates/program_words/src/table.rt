ghost use Rattle.std.specs.Prelude.{◌≡◌, [], IfOk, false, fold};
ghost use Rattle.clap.specs.Words.{app_of, rule_of, with_rule};
ghost use Rattle.program_words.specs.Table.{app_named, audit_files, limit_options, number_rule, option_rule, outputs, program_and_input, program_and_ports, required_rule, result_options, returns_rule, run_options, simple_app, trial_options, words_rule};

use crate::command_kind::CommandKind;
use crate::limits::LOADS;
use clap::builder::ValueParser;
use clap::{Arg, ArgAction, Command};
use guest_words::limits::{BUDGET, HARTS};
use std::alloc::{AllocError, Global};

/// `--name TEXT`.
fn option<'a>(alloc: Global, name: &'a str) -> Arg<'a>
    ensures rule { rule_of result ≡ option_rule name.entry.now }
    ensures local { result.global ≡ false }
{
    Arg::new(alloc, name).long(name)
}

/// `--name N`, from `least` to `most`.
fn number<'a>(alloc: Global, name: &'a str, least: u64, most: u64) -> Arg<'a>
    ensures rule { rule_of result ≡ number_rule name.entry.now least most }
    ensures local { result.global ≡ false }
{
    option(alloc, name).value_parser(ValueParser::unsigned(least, most))
}

/// A positional that has to be there.
fn required<'a>(alloc: Global, name: &'a str) -> Arg<'a>
    ensures rule { rule_of result ≡ required_rule name.entry.now }
    ensures local { result.global ≡ false }
{
    Arg::new(alloc, name).action(ArgAction::Set).required(true)
}

/// Any number of further positionals.
fn words<'a>(alloc: Global, name: &'a str) -> Arg<'a>
    ensures rule { rule_of result ≡ words_rule name.entry.now }
    ensures local { result.global ≡ false }
{
    Arg::new(alloc, name).num_args(0..)
}

/// `--returns N`.
fn returns<'a>(alloc: Global) -> Arg<'a>
    ensures rule { rule_of result ≡ returns_rule }
    ensures local { result.global ≡ false }
{
    option(alloc, "returns").value_parser(ValueParser::signed(i64::MIN, i64::MAX))
}

/// A command without help and version flags, whose words don't include its name.
fn bare<'a>(alloc: Global, name: &'a str) -> Command<'a>
    ensures app { app_of result ≡ simple_app name.entry.now [] }
{
    Command::new(alloc, name)
        .no_binary_name(true)
        .disable_help_flag(true)
        .disable_version_flag(true)
}

/// The command with the harts and the budget of a run.
fn with_limits<'a>(alloc: Global, command: Command<'a>) -> Result<Command<'a>, AllocError>
    ensures app { IfOk result (λ c. app_of c ≡ fold with_rule (app_of command.entry) limit_options) }
{
    command
        .arg(number(alloc, "harts", 1, u64::from(HARTS)))?
        .arg(number(alloc, "budget", 1, BUDGET))
}

/// The command with the options that say where a run's texts go.
fn with_result_options<'a>(alloc: Global, command: Command<'a>) -> Result<Command<'a>, AllocError>
    ensures app { IfOk result (λ c.
        app_of c ≡ fold with_rule (app_of command.entry) result_options) }
{
    command
        .arg(option(alloc, "save"))?
        .arg(option(alloc, "report"))
}

/// The command with the options of a run.
fn with_run_options<'a>(alloc: Global, command: Command<'a>) -> Result<Command<'a>, AllocError>
    ensures app { IfOk result (λ c. app_of c ≡ fold with_rule (app_of command.entry) run_options) }
{
    let command = command.arg(option(alloc, "points"))?;
    let command = with_limits(alloc, command)?;
    with_result_options(alloc, command)
}

/// The command with a program and its ports.
fn with_program<'a>(alloc: Global, command: Command<'a>) -> Result<Command<'a>, AllocError>
    ensures app { IfOk result (λ c.
        app_of c ≡ fold with_rule (app_of command.entry) program_and_ports) }
{
    command
        .arg(required(alloc, "program"))?
        .arg(words(alloc, "ports"))
}

/// The command with the options of a trial.
fn with_trial_options<'a>(alloc: Global, command: Command<'a>) -> Result<Command<'a>, AllocError>
    ensures app { IfOk result (λ c. app_of c ≡ fold with_rule (app_of command.entry) trial_options) }
{
    with_limits(alloc, command)?
        .arg(number(alloc, "seed", 0, u64::MAX))?
        .arg(returns(alloc))
}

/// The command with a program and what it reads.
fn with_program_and_input<'a>(
    alloc: Global,
    command: Command<'a>,
) -> Result<Command<'a>, AllocError>
    ensures app { IfOk result (λ c.
        app_of c ≡ fold with_rule (app_of command.entry) program_and_input) }
{
    command
        .arg(required(alloc, "program"))?
        .arg(required(alloc, "input"))
}

/// The command with what a program wrote.
fn with_outputs<'a>(alloc: Global, command: Command<'a>) -> Result<Command<'a>, AllocError>
    ensures app { IfOk result (λ c. app_of c ≡ fold with_rule (app_of command.entry) outputs) }
{
    command
        .arg(required(alloc, "out"))?
        .arg(required(alloc, "err"))
}

/// The command with the files of an audit.
fn with_audit_files<'a>(alloc: Global, command: Command<'a>) -> Result<Command<'a>, AllocError>
    ensures app { IfOk result (λ c. app_of c ≡ fold with_rule (app_of command.entry) audit_files) }
{
    let command = command.arg(required(alloc, "history"))?;
    let command = with_program_and_input(alloc, command)?;
    with_outputs(alloc, command)?.arg(words(alloc, "ports"))
}

/// What the command takes behind its name.
pub fn simple_command<'a>(alloc: Global, kind: CommandKind) -> Result<Command<'a>, AllocError>
    ensures app { IfOk result (λ c. app_of c ≡ app_named kind) }
{
    match kind {
        CommandKind::Run => {
            let command = with_run_options(alloc, bare(alloc, "run"))?;
            with_program(alloc, command)
        }
        CommandKind::Alone => {
            let command = with_run_options(alloc, bare(alloc, "alone"))?;
            let command = command.arg(number(alloc, "seed", 0, u64::MAX))?;
            with_program(alloc, command)
        }
        CommandKind::List => bare(alloc, "list").arg(required(alloc, "program")),
        CommandKind::Load => {
            let number = required(alloc, "number").value_parser(ValueParser::unsigned(1, LOADS));
            bare(alloc, "load").arg(number)
        }
        CommandKind::Audit => {
            let command = bare(alloc, "audit").arg(option(alloc, "points"))?;
            let command = command.arg(option(alloc, "report"))?;
            with_audit_files(alloc, command)
        }
        CommandKind::Try => {
            let command = with_trial_options(alloc, bare(alloc, "try"))?;
            let command = command.arg(option(alloc, "report"))?;
            with_program_and_input(alloc, command)
        }
        CommandKind::Help => bare(alloc, "help").arg(words(alloc, "words")),
        CommandKind::Version => bare(alloc, "version").arg(words(alloc, "words")),
    }
}
