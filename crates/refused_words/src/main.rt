//! The program `grape` with words that ask for nothing: it ends with 2, and reads and writes nothing.
#![tactic(auto)]

use grape_main::program;
use std::process::ExitCode;

fn main(rt: HostRuntime) -> ExitCode {
    program(&rt, rt.stdin(), rt.stdout(), rt.stderr())
}
