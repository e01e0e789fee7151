//! A judge of traces: whether a trace tells a legal run of a plan that closes every phase, whoever wrote it.
//!
//! [`check`] reads a trace line by line. Behind the report are the moves. Each is tested by the market of cuts, on whole
//! cuts (`pm_market`), and then made there. No cluster, cache or record takes part. A trace is judged by the definitions of
//! the moves, of the plain auction and of the lines alone. So a run can be judged later, elsewhere, and by another build.
//!
//! `lines` splits a text, `reading` reads a line ([`read_line`]), and `lists` makes the market of a plan. `steps` keeps
//! the plain auction of each clearing. `judge` has a market with these steps and takes one line a call. `trace` judges a
//! whole trace. The definitions are in `specs/`. `Lines` has the lines of a text, and `MoveReading` the line that tells a
//! move. `Traces` has which line is due, valid traces and the bad line. `Judges` and `Reading` have what is kept while a
//! trace is read.
#![tactic(auto)]

mod fault;
mod judge;
mod law;
mod lines;
mod lists;
mod reading;
mod steps;
mod trace;

pub use fault::CheckFault;
pub use law::traces_have_one_judgement;
pub use reading::read_line;
pub use trace::check;
