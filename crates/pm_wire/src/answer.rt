//! The answers of the auctioneer, and the bytes of each.

ghost use Rattle.std.specs.Prelude.{◌≡◌, ◌+◌, ◌<◌, ◌≤◌, ◌++◌, length, vec_len, vec_capacity, OnOk, OnErr};
ghost use Rattle.pm_wire.specs.Answers.{answer_bytes};

use crate::kinds::{BARE_PRICE, FAULT, NOT_CHANGED, OLD};
use std::alloc::AllocError;

/// An answer of the auctioneer.
#[derive(Clone, Copy, Debug, PartialEq, Eq)]
pub enum Reply {
    /// The price for a child: the number of the bid that it answers, the index of the clearing, from 1, and the step of the
    /// basis at which the market clears.
    Price {
        child: u16,
        number: u32,
        index: u32,
        step: u16,
    },
    /// Nothing counted since the market was cleared last.
    NotChanged,
    /// A Bid or Gone of this child does not count, since its number is not above the kept one.
    Old {
        child: u16,
        kept: u32,
    },
    /// The frame that begins behind the first `offset` bytes is bad.
    Fault {
        offset: u64,
    },
}

impl Reply {
    /// Appends the bytes of the answer. If an allocation fails, nothing is appended. This happens only if there was no room
    /// for them.
    pub fn write(&self, out: &mut Vec<u8>) -> Result<(), AllocError>
        ensures written { OnOk result (out.new.items ≡ out.old.items ++ answer_bytes self.now) }
        ensures unchanged { OnErr result (out.new.items ≡ out.old.items) }
        ensures full { OnErr result
            (vec_capacity out.old < vec_len out.old + length (answer_bytes self.now)) }
        ensures capacity { vec_capacity out.old ≤ vec_capacity out.new }
    {
        match self {
            Reply::Price {
                child,
                number,
                index,
                step,
            } => {
                let (child, number) = (child.to_be_bytes(), number.to_be_bytes());
                let (index, step) = (index.to_be_bytes(), step.to_be_bytes());
                out.extend_from_slice(&[
                    BARE_PRICE, child[0], child[1], number[0], number[1], number[2], number[3],
                    index[0], index[1], index[2], index[3], step[0], step[1],
                ])
            }
            Reply::NotChanged => out.extend_from_slice(&[NOT_CHANGED]),
            Reply::Old { child, kept } => {
                let (child, kept) = (child.to_be_bytes(), kept.to_be_bytes());
                out.extend_from_slice(&[
                    OLD, child[0], child[1], kept[0], kept[1], kept[2], kept[3],
                ])
            }
            Reply::Fault { offset } => {
                let at = offset.to_be_bytes();
                out.extend_from_slice(&[
                    FAULT, at[0], at[1], at[2], at[3], at[4], at[5], at[6], at[7],
                ])
            }
        }
    }
}
