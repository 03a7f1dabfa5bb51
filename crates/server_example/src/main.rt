//! The example server as the program runs it, with its report behind its output.
#![tactic(auto)]

use edge_ports::Standard;
use rescue_run::run_program_to;
use std::process::ExitCode;

fn main(rt: HostRuntime) -> ExitCode {
    run_program_to(&rt, &rt, Standard::Out(rt.stdout()))
}
