//! A guest that exits with a status over 127.
#![tactic(auto)]

use rescue_run::run_program;
use std::process::ExitCode;

fn main(rt: HostRuntime) -> ExitCode {
    run_program(&rt, &rt)
}
