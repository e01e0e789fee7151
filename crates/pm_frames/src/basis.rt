//! A basis in a frame behind Hello.

ghost use Rattle.std.specs.Prelude.{◌≡◌, ◌≤◌, ◌++◌, ◌↔◌, IsTrue, length, Some};
ghost use Rattle.pm_frames.specs.NamedBases.{basis_bytes, IsBasisFormed, IsBasisAccepted};
ghost use Rattle.pm_frames.specs.Places.{basis_at};

use crate::place::Stage;
use pm_basis::Basis;
use pm_wire::{read_i32, read_u16};
use std::marker::Model;

/// The numbers that a frame has where it names a basis. They need not be one.
///
/// Contracts see them as the basis that they would be.
#[derive(Clone, Copy, Debug, PartialEq, Eq)]
pub struct NamedBasis {
    min: i64,
    max: i64,
    steps: u16,
}

impl Model for NamedBasis {
    ghost use Rattle.pm_basis.specs.Prices.{BasisValue};

    ghost Value = { BasisValue };

    ghost view = { λ b. record {
      min = b.min;
      max = b.max;
      steps = b.steps;
    } };

    ghost inverse = { λ v. record {
      min = v.min;
      max = v.max;
      steps = v.steps;
    } };
}

/// The basis that the bytes begin with, and the bytes behind it.
pub(crate) fn read_basis(bytes: &[u8]) -> (NamedBasis, &[u8])
    requires { 10 ≤ length bytes.now }
    ensures bytes { bytes.now ≡ basis_bytes result.0 ++ result.1.now }
    ensures formed { IsBasisFormed result.0 }
{
    let (min, rest) = read_i32(bytes);
    let (max, rest) = read_i32(rest);
    let (steps, rest) = read_u16(rest);
    (NamedBasis { min, max, steps }, rest)
}

impl NamedBasis {
    /// How many steps it names.
    pub(crate) fn steps(&self) -> u16
        ensures { result ≡ self.now.steps }
    {
        self.steps
    }

    /// Whether the numbers are a basis, as Hello has one.
    pub(crate) fn is_basis(&self) -> bool
        ensures { IsTrue result ↔ IsBasisAccepted self.now }
    {
        Basis::new(self.min, self.max, i64::from(self.steps)).is_ok()
    }

    /// Whether this is the basis.
    pub fn is(&self, basis: &Basis) -> bool
        ensures { IsTrue result ↔ (self.now ≡ basis.now) }
    {
        self.min == basis.min()
            && self.max == basis.max()
            && usize::from(self.steps) == basis.steps()
    }

    /// Whether this is the basis that Hello had.
    pub(crate) fn is_at(&self, stage: Stage) -> bool
        ensures { IsTrue result ↔ (basis_at stage ≡ Some self.now) }
    {
        match stage.basis() {
            Some(basis) => self.is(&basis),
            None => false,
        }
    }
}
