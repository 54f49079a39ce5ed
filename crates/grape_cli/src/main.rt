//! The program `grape`.
#![tactic(auto)]

use grape_main::program;
use std::process::ExitCode;

fn main(rt: HostRuntime) -> ExitCode {
    program(&rt, rt.stdin(), rt.stdout(), rt.stderr())
}
