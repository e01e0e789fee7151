//! Reading a line of a trace.
//!
//! A trace tells each move of a run in a line of words (`pm_report`). A reader here is the inverse of what writes the
//! words. It answers the value that is written so, and None if no value is. So of the bytes of a line there is one
//! answer, whoever wrote them. Reading takes no memory and costs the length of the line and the look-up of a name.
//!
//! `words` splits a line, `numbers`, `names` and `prices` read one word, `parts` what follows the first word of a line,
//! and `line` a whole line. `specs/MoveReading.antt` has the definition.

mod line;
mod names;
mod numbers;
mod parts;
mod prices;
mod words;

pub use line::read_line;
