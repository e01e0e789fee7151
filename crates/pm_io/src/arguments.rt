//! The arguments of the command line.

use std::env;
use std::io::ErrorKind;

/// Why the arguments of the command line cannot be had.
#[derive(Clone, Copy, Debug, PartialEq, Eq)]
pub enum ArgumentsFault {
    /// An allocation failed.
    NoMemory,
    /// The system does not give an argument as text.
    Refused,
}

/// The arguments after the program's name.
pub fn arguments_of(rt: &HostRuntime) -> Result<Vec<String>, ArgumentsFault> {
    let arguments = match env::args(rt) {
        Ok(arguments) => arguments,
        Err(e) => {
            let fault = if e.kind() == ErrorKind::OutOfMemory {
                ArgumentsFault::NoMemory
            } else {
                ArgumentsFault::Refused
            };
            return Err(fault);
        }
    };
    match arguments.skip(1).collect(rt.alloc()) {
        Ok(arguments) => Ok(arguments),
        Err(_) => Err(ArgumentsFault::NoMemory),
    }
}
