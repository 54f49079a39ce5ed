//! The program `grape` on a graph of 100,000 vertices that is drawn from the number 7: it reads nothing, and writes the totals of the distances.
#![tactic(auto)]

use grape_main::program;
use std::process::ExitCode;

fn main(rt: HostRuntime) -> ExitCode {
    program(&rt, rt.stdin(), rt.stdout(), rt.stderr())
}
