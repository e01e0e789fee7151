//! The bill of a run: what each device and the grid pay for their power, and how much they take and give, over ticks.
//!
//! In a tick each device pays the price of its group for its power over the minutes of the tick; who delivers power is
//! paid. The devices of a group need not balance at its step, and below a limited concentrator the price is another one.
//! The grid takes and gives what is left over, and is the other side of every payment. So the amounts of all devices and
//! of the grid add up to 0, and so does all power taken less all power given. The type of a [`Bill`] keeps this. Amounts
//! are in price units times watts times minutes, in 128 bits.
//!
//! The definitions are in `specs/`. `Accounts` has what a power comes to, `Shares` a tick's shares and groups, and `Bills`
//! the accounts of all. `Ticks` has the ticks that a bill took, and `Text` its text. `Runs` has the bill of a run, from
//! its plan alone, and `Charges` what a phase's end says of the tick after it. Bills are this project's own profile.
#![tactic(auto)]

mod account;
mod bill;
mod charges;
mod law;
mod run;
mod share;
mod sums;
mod text;

pub use account::Account;
pub use bill::Bill;
pub use law::{accounts_are_sums, bills_of_plans_add_up};
pub use run::bill_of_run;
pub use share::{GroupSum, Share};
