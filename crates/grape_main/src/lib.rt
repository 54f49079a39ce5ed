//! What the program `grape` does: standard input, output and error are the ports of one run, and the file `grape.state`
//! of the folder in which it runs is the disk.
//!
//! The program itself is `grape_cli`. `refused_words` and `refused_input` are the same program beside another command
//! line or input, whose exit number and output the gate compares.
#![tactic(auto)]

use delay_stretch::{Pacer, Seeded};
use grape_disk::FileDisk;
use grape_port::{NoMemory, StdSink, StdSource};
use grape_run::{Status, Words, code, grape};
use lane_loop::OpenGate;
use std::fs::Files;
use std::io::{Read, Write};
use std::process::ExitCode;
use std::rt::Env;
use std::sync::Wait;
use std::thread::Threads;
use std::{env, io};

/// The words behind the program's name. Words that are no text are none, which asks for nothing.
fn command_words(rt: &(impl Env + AllocGlobal)) -> Result<Words, NoMemory> {
    let mut words = Words::new(rt.alloc());
    let arguments = match env::args(rt) {
        Ok(arguments) => arguments,
        Err(error) if error.kind() == io::ErrorKind::OutOfMemory => return Err(NoMemory),
        Err(_) => return Ok(words),
    };
    for word in arguments.skip(1) {
        words.push(word.as_str())?;
    }
    Ok(words)
}

/// The state file, which isn't opened yet.
fn state_file<R: Files + AllocGlobal>(rt: &R) -> Result<FileDisk<&R>, NoMemory> {
    let path = String::from_str(rt.alloc(), "grape.state")?;
    Ok(FileDisk::new(rt, path))
}

/// How the program ends where its own making finds no memory.
fn no_memory() -> ExitCode {
    ExitCode::from(code(&Status::NoMemory))
}

/// Runs the command that the program's words name on these streams, and gives its exit number. The state file is opened,
/// and made where it is missing, only where the command uses it: at `resume`, and at a `run` that keeps snapshots.
pub fn program<
    R: Threads + Wait + Sync + Env + Files + AllocGlobal,
    I: Read + Drop,
    O: Write + Drop,
    E: Write + Drop,
>(rt: &R, input: I, out: O, note: E) -> ExitCode {
    let Ok(words) = command_words(rt) else {
        return no_memory();
    };
    // a pacer for each fragment that there may be, seeded with its number
    let mut pacers: Vec<Box<dyn Pacer + Send>> = Vec::new(rt.alloc());
    'pacers: for number in 0..64 {
        let Ok(pacer) = Box::new(rt.alloc(), Seeded::new(number)) else {
            return no_memory();
        };
        let Ok(()) = pacers.push(pacer) else {
            return no_memory();
        };
    }
    let Ok(mut disk) = state_file(rt) else {
        return no_memory();
    };
    let finish = grape(
        rt,
        rt.alloc(),
        &words,
        &mut StdSource::new(input),
        &mut StdSink::new(out),
        &mut StdSink::new(note),
        &mut disk,
        pacers,
        &OpenGate,
    );
    ExitCode::from(code(&finish.status))
}
