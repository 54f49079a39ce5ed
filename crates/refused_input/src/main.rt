//! The program `grape` on an input whose third line is bad: it ends with 3, and writes nothing to standard output.
#![tactic(auto)]

use grape_main::program;
use std::process::ExitCode;

fn main(rt: HostRuntime) -> ExitCode {
    program(&rt, rt.stdin(), rt.stdout(), rt.stderr())
}
