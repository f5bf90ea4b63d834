//! The program `glass_picture`.
#![tactic(auto)]

use picture_run::run_picture;
use std::process::ExitCode;

fn main(rt: HostRuntime) -> ExitCode {
    ExitCode::from(run_picture(&rt))
}
