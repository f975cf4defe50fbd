//! `xetra-day`: replays a trading day and writes its statement, or checks a segment file.
#![tactic(auto)]

use std::process::ExitCode;
use xm_program::run_program;

fn main(rt: HostRuntime) -> ExitCode {
    run_program(&rt)
}
