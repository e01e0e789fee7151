//! The program `market`: reads a cluster file from standard input and writes to standard output.
//!
//! It hands the arguments of the command line, standard input and standard output to the top call, and
//! ends with the code of its status. It prints nothing itself.
#![tactic(auto)]

use pm_io::{ArgumentsFault, StdSink, StdSource, arguments_of};
use pm_nodes::OpenGate;
use pm_top::{Status, market};
use std::process::ExitCode;

/// The exit code if the system refuses the arguments of the command line.
const ARGUMENTS_REFUSED: u8 = 8;

fn main(rt: HostRuntime) -> ExitCode {
    match arguments_of(&rt) {
        Ok(arguments) => {
            let mut source = StdSource::new(rt.stdin());
            let mut sink = StdSink::new(rt.stdout());
            let status = market(
                &rt,
                rt.alloc(),
                &arguments,
                &mut source,
                &mut sink,
                &OpenGate,
            );
            ExitCode::from(status.code())
        }
        Err(ArgumentsFault::NoMemory) => ExitCode::from(Status::NoMemory.code()),
        Err(ArgumentsFault::Refused) => ExitCode::from(ARGUMENTS_REFUSED),
    }
}
