//! The program: the top call by the words of the command line.
#![tactic(auto)]

use rescue_run::run_program;
use std::process::ExitCode;

fn main(rt: HostRuntime) -> ExitCode {
    run_program(&rt, &rt)
}
