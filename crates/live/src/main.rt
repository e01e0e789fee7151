//! The program `live`: a node of a market across machines, over standard input and standard output.
//!
//! It hands the arguments of the command line, standard input and standard output to the call of pm_live, and ends with
//! the code of its ending. It prints nothing itself.
#![tactic(auto)]

use pm_io::{ArgumentsFault, StdSink, StdSource, SystemMemory, arguments_of};
use pm_live::live;
use std::process::ExitCode;

/// The exit code if an allocation fails.
const NO_MEMORY: u8 = 7;

/// The exit code if the system refuses the arguments of the command line.
const ARGUMENTS_REFUSED: u8 = 8;

fn main(rt: HostRuntime) -> ExitCode {
    match arguments_of(&rt) {
        Ok(arguments) => {
            let mut source = StdSource::new(rt.stdin());
            let mut sink = StdSink::new(rt.stdout());
            let mut memory = SystemMemory::new(rt.alloc());
            let ending = live(rt.alloc(), &mut memory, &arguments, &mut source, &mut sink);
            ExitCode::from(ending.code())
        }
        Err(ArgumentsFault::NoMemory) => ExitCode::from(NO_MEMORY),
        Err(ArgumentsFault::Refused) => ExitCode::from(ARGUMENTS_REFUSED),
    }
}
