//! A command that is refused on standard output, as the program runs it.
#![tactic(auto)]

use rescue_run::run_program;
use std::process::ExitCode;

fn main(rt: HostRuntime) -> ExitCode {
    run_program(&rt, &rt)
}
