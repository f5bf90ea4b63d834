//! The program `glass` once more, run on a file that is not there: it tells so, and ends with the status of that.
#![tactic(auto)]

use glass_run::run_program;
use std::io::IsTerminal;
use std::process::ExitCode;

fn main(rt: HostRuntime) -> ExitCode {
    ExitCode::from(run_program(&rt, rt.stderr().is_terminal()))
}
