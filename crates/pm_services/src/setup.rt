//! What a relay knows of itself once there is a basis.

ghost use Rattle.std.specs.Prelude.{◌≡◌, ◌↔◌, IsTrue};
ghost use Rattle.pm_frames.specs.Terms.{MayGive};

use pm_basis::Basis;
use pm_frames::{NamedBasis, RelayTerms};
use std::marker::Model;

/// The relay's own number at its parent, what the arguments say of it, and the basis of the market.
///
/// Contracts see these.
#[derive(Drop)]
pub(crate) struct RelaySetup {
    pub(crate) child: u16,
    pub(crate) terms: RelayTerms,
    pub(crate) basis: Basis,
}

impl Model for RelaySetup {
    ghost use Rattle.pm_services.specs.RelaySetups.{RelaySetup};

    ghost Value = { RelaySetup };

    ghost use Rattle.pm_services.specs.RelaySetupFields.{relay_setup_of, AreRelaySetupFields};

    ghost view = { relay_setup_of };

    ghost invariant = { AreRelaySetupFields };
}

impl RelaySetup {
    /// The place among the relay's children in which limits are given, if they are.
    pub(crate) fn giver(&self) -> Option<u16>
        ensures giver { result ≡ self.now.terms.giver }
        ensures child { MayGive result }
    {
        self.terms.giver
    }

    /// Whether the basis of the market is this one.
    pub(crate) fn has_basis(&self, basis: &NamedBasis) -> bool
        ensures { IsTrue result ↔ (basis.now ≡ self.now.basis) }
    {
        basis.is(&self.basis)
    }
}
