//! What a node keeps over a restart, and reads when it comes back.

ghost use Rattle.std.specs.Prelude.{◌≡◌, ◌+◌, ◌*◌, ◌<◌, ◌≤◌, ◌∷◌, ◌↔◌, IsTrue, length, IfOk};
ghost use Rattle.pm_io.specs.Causes.{HasCause};
ghost use Rattle.pm_base.specs.Limits.{most_nodes};
ghost use Rattle.pm_relay.specs.Numbers.{child_number};
ghost use Rattle.pm_frames.specs.Kinds.{resume_kind};
ghost use Rattle.pm_frames.specs.Stored.{number_bytes, AreChildNumbers, relay_resume_bytes, root_resume_bytes, IsRelayStored, IsOfTerms};
ghost use Rattle.pm_frames.specs.Stored.{IsRelayStoredAccepted, IsRootStored, IsRootStoredAccepted};

use crate::basis::{NamedBasis, read_basis};
use crate::limits::{are_relay_limits, read_floor_and_ceiling};
use crate::place::Stage;
use crate::terms::RelayTerms;
use pm_base::{Limits, MOST_NODES};
use pm_bid::ArrayBid;
use pm_io::Memory;
use pm_relay::Resume;
use pm_wire::{read_u16, read_u32};
use std::alloc::AllocError;
use std::marker::Model;

/// What a relay comes back with.
#[derive(Drop)]
pub struct StoredRelay {
    last: u32,
    answered: u32,
    index: u32,
    basis: NamedBasis,
    first: Limits,
    giver: u16,
    limits: Limits,
    numbers: Vec<u32>,
}

impl Model for StoredRelay {
    ghost use Rattle.pm_frames.specs.Stored.{StoredRelay};

    ghost Value = { StoredRelay };

    ghost view = { λ s. record {
      last = s.last;
      answered = s.answered;
      index = s.index;
      basis = s.basis;
      first = s.first;
      giver = s.giver;
      limits = s.limits;
      numbers = s.numbers.items;
    } };
}

/// What an auctioneer comes back with.
#[derive(Drop)]
pub struct StoredRoot {
    last: u32,
    basis: NamedBasis,
    numbers: Vec<u32>,
}

impl Model for StoredRoot {
    ghost use Rattle.pm_frames.specs.Stored.{StoredRoot};

    ghost Value = { StoredRoot };

    ghost view = { λ s. record { last = s.last; basis = s.basis; numbers = s.numbers.items } };
}

/// What a device's agent comes back with.
#[derive(Drop)]
pub struct StoredAgent {
    /// The number given last, 0 where there is none.
    pub number: u32,
    /// The index of the price that it took last, 0 where there is none.
    pub index: u32,
    /// The basis of its offer.
    pub basis: NamedBasis,
    /// The demand in watts of the offer under this number. None where the device left, or offered nothing.
    pub newest: Option<ArrayBid>,
}

impl StoredRelay {
    /// What the relay gave.
    pub fn resume(&self) -> Resume<'_>
        ensures last { result.last ≡ self.now.last }
        ensures numbers { result.numbers.now ≡ self.now.numbers }
        ensures limits { result.limits ≡ self.now.limits }
        ensures answered { result.answered ≡ self.now.answered }
        ensures index { result.index ≡ self.now.index }
    {
        Resume {
            last: self.last,
            numbers: &self.numbers,
            limits: self.limits,
            answered: self.answered,
            index: self.index,
        }
    }

    /// The number in the record of the child in this place, which counts from 0.
    pub fn number_of(&self, child: usize) -> u32
        requires { child < length self.now.numbers }
        ensures { result ≡ child_number self.now.numbers child }
    {
        self.numbers[child]
    }

    /// Whether it is of this basis and of a relay with these terms, the number answered is not above the last one, and a relay may
    /// have the limits.
    pub(crate) fn is_accepted(&self, stage: Stage, terms: &RelayTerms) -> bool
        ensures { IsTrue result ↔ IsRelayStoredAccepted stage terms.now self.now }
    {
        self.basis.is_at(stage)
            && self.is_of(terms)
            && self.answered <= self.last
            && are_relay_limits(&self.limits)
    }

    /// Whether it is of a relay with these terms.
    fn is_of(&self, terms: &RelayTerms) -> bool
        ensures { IsTrue result ↔ IsOfTerms terms.now self.now }
    {
        self.first.floor == terms.limits.floor
            && self.first.ceiling == terms.limits.ceiling
            && self.giver == terms.giver_number()
    }
}

impl StoredRoot {
    /// The index of the last clearing.
    pub fn last(&self) -> u32
        ensures { result ≡ self.now.last }
    {
        self.last
    }

    /// For each child the number that went into that clearing.
    pub fn numbers(&self) -> &[u32]
        ensures { result.now ≡ self.now.numbers }
    {
        &self.numbers
    }

    /// Whether it is of the basis that Hello had.
    pub(crate) fn is_accepted(&self, stage: Stage) -> bool
        ensures { IsTrue result ↔ IsRootStoredAccepted stage self.now }
    {
        self.basis.is_at(stage)
    }
}

/// The numbers of the children that the bytes are, four bytes each.
fn read_numbers<M: Memory>(memory: &mut M, bytes: &[u8]) -> Result<Vec<u32>, AllocError>
    requires { length bytes.now ≡ 4 * most_nodes }
    ensures bytes { IfOk result (λ numbers. bytes.now ≡ number_bytes numbers.items) }
    ensures are { IfOk result (λ numbers. AreChildNumbers numbers.items) }
    ensures cause { HasCause (M.refusals memory.old) (M.refusals memory.new) result }
{
    let mut numbers = memory.list(MOST_NODES)?;
    let mut rest = bytes;
    for _child in 0..MOST_NODES {
        let (number, after) = read_u32(rest);
        let Ok(()) = numbers.push(number) else {
            unreachable!()
        };
        rest = after;
    }
    Ok(numbers)
}

/// What a relay comes back with, by the bytes after the kind.
pub(crate) fn read_stored_relay<M: Memory>(
    memory: &mut M,
    body: &[u8],
) -> Result<StoredRelay, AllocError>
    requires { length body.now ≡ 40 + 4 * most_nodes }
    ensures spelled { IfOk result (λ stored. resume_kind ∷ body.now ≡ relay_resume_bytes stored) }
    ensures stored { IfOk result IsRelayStored }
    ensures cause { HasCause (M.refusals memory.old) (M.refusals memory.new) result }
{
    let (last, rest) = read_u32(body);
    let (answered, rest) = read_u32(rest);
    let (index, rest) = read_u32(rest);
    let (basis, rest) = read_basis(rest);
    let (first, rest) = read_floor_and_ceiling(rest);
    let (giver, rest) = read_u16(rest);
    let (limits, rest) = read_floor_and_ceiling(rest);
    let numbers = read_numbers(memory, rest)?;
    Ok(StoredRelay {
        last,
        answered,
        index,
        basis,
        first,
        giver,
        limits,
        numbers,
    })
}

/// What an auctioneer comes back with, by the bytes after the kind.
pub(crate) fn read_stored_root<M: Memory>(
    memory: &mut M,
    body: &[u8],
) -> Result<StoredRoot, AllocError>
    requires { length body.now ≡ 14 + 4 * most_nodes }
    ensures spelled { IfOk result (λ stored. resume_kind ∷ body.now ≡ root_resume_bytes stored) }
    ensures stored { IfOk result IsRootStored }
    ensures cause { HasCause (M.refusals memory.old) (M.refusals memory.new) result }
{
    let (last, rest) = read_u32(body);
    let (basis, rest) = read_basis(rest);
    let numbers = read_numbers(memory, rest)?;
    Ok(StoredRoot {
        last,
        basis,
        numbers,
    })
}
