//! A guest with two ports: what it writes to the first comes back by the second, over one file.
#![tactic(auto)]

use rescue_run::run_program;
use std::process::ExitCode;

fn main(rt: HostRuntime) -> ExitCode {
    run_program(&rt, &rt)
}
