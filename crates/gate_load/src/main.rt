//! The summary of the longest load, as the program puts it.
#![tactic(auto)]

use rescue_run::run_program;
use std::process::ExitCode;

fn main(rt: HostRuntime) -> ExitCode {
    run_program(&rt, &rt)
}
