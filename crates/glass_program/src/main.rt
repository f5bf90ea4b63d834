//! The program `glass`.
#![tactic(auto)]

use glass_run::run_program;
use std::io::IsTerminal;
use std::process::ExitCode;

fn main(rt: HostRuntime) -> ExitCode {
    ExitCode::from(run_program(&rt, rt.stderr().is_terminal()))
}
