//! tcrun: plays the script on standard input, and prints a line for each of its lines.
#![tactic(auto)]

mod arguments;

use crate::arguments::{Task, task_for};
use player::board::run;
use script::reader::INPUT_BYTES;
use std::alloc::AllocError;
use std::env::{Env, FillError};
use std::io;
use std::io::{ErrorKind, Read, Write};
use std::process::ExitCode;
use thiserror::Error;

const HELP: &str = "Plays a script on a model of Temporal Coherence for graphics processors.

Usage: tcrun < SCRIPT
       tcrun --help | --version

tcrun reads standard input to its end, or 65536 bytes of it. Then it prints a line for each line:
its number, and what its call came to.

  N CORES S, N CORES W           start with 1 to 16 cores, under TC-Strong or TC-Weak
  L CORE WAVE ADDRESS            load
  S CORE WAVE ADDRESS VALUE      store
  V CORE                         let the bank serve the core's oldest request
  D CORE                         deliver the core's oldest answer
  T                              tick

docs/FORMATS.md has the formats of lines, and docs/REFUSALS.md the causes of refusals.
";

const VERSION: &str = "tcrun 0.1.0\n";

/// Why tcrun ends with status 1.
#[derive(Debug, Drop, Error)]
enum Failure {
    #[error("cannot read the arguments: {0}")]
    Arguments(io::Error),
    #[error("unknown argument '{0}'; try --help")]
    UnknownArgument(String),
    #[error("cannot read the script: {0}")]
    Script(io::Error),
    #[error("memory is short")]
    Memory(#[from] AllocError),
    #[error("cannot write the {0}: {1}")]
    Output(&'static str, io::Error),
}

/// The most bytes of an argument: Linux hands none over that is longer.
const ARGUMENT_BYTES: usize = 131072;

/// Why an argument cannot be read.
fn unreadable(kind: ErrorKind) -> Failure {
    Failure::Arguments(io::Error::from(kind))
}

/// The first argument after the program's name, if there is one. Nothing else is read of the arguments.
fn first_argument(rt: &HostRuntime) -> Result<Option<String>, Failure> {
    if let Err(FillError::NotPresent) = rt.arg(1, &mut []) {
        return Ok(None);
    }
    let mut bytes = vec![in rt.alloc(); 0u8; ARGUMENT_BYTES]?;
    let Ok(len) = rt.arg(1, &mut bytes) else {
        return Err(unreadable(ErrorKind::InvalidInput));
    };
    bytes.truncate(len);
    String::from_utf8(bytes)
        .map(Some)
        .map_err(|_| unreadable(ErrorKind::InvalidData))
}

/// The script: standard input to its end, or the part of it that is read. All its room is reserved first.
fn script(rt: &HostRuntime) -> Result<Vec<u8>, Failure> {
    let mut script = Vec::with_capacity(rt.alloc(), INPUT_BYTES)?;
    match rt.stdin().take(INPUT_BYTES as u64).read_to_end(&mut script) {
        Ok(_) => Ok(script),
        Err(error) if error.kind() == ErrorKind::OutOfMemory => Err(Failure::Memory(AllocError)),
        Err(error) => Err(Failure::Script(error)),
    }
}

/// Writes to standard output; `what` names it, where that fails.
fn print(rt: &HostRuntime, what: &'static str, bytes: &[u8]) -> Result<(), Failure> {
    rt.stdout()
        .write_all(bytes)
        .map_err(|error| Failure::Output(what, error))
}

/// Does what the arguments ask for.
fn work(rt: &HostRuntime) -> Result<(), Failure> {
    let first = first_argument(rt)?;
    match task_for(first.as_deref()) {
        Task::Play => print(rt, "answers", run(rt.alloc(), &script(rt)?)?.as_bytes()),
        Task::Help => print(rt, "help", HELP.as_bytes()),
        Task::Version => print(rt, "version", VERSION.as_bytes()),
        Task::Unknown(argument) => Err(Failure::UnknownArgument(argument.to_string(rt.alloc())?)),
    }
}

fn main(rt: HostRuntime) -> ExitCode {
    match work(&rt) {
        Ok(()) => ExitCode::SUCCESS,
        Err(failure) => {
            // An error is told on standard error; where that fails too, the status tells it.
            let _ = eprintln!(rt; "tcrun: {failure}");
            ExitCode::FAILURE
        }
    }
}
