//! What an agent hands on: a change, the device's kind, and its demand afterwards.

ghost use Rattle.std.specs.Prelude.{◌≡◌, length, IsTrue};
ghost use Rattle.pm_bid.specs.Bids.{HaveSteps, zeros};
ghost use Rattle.pm_device.specs.Kinds.{is_valid, state_fits};
ghost use Rattle.pm_agent.specs.MadeBids.{IsMade, demand_after_change};

use pm_bid::{ArrayBid, uncounted};
use pm_device::{DeviceState, Kind, Next};
use pm_strategy::fill_bid;
use std::marker::Model;

/// What a device's next change makes of it: the change, the device's kind, and its demand afterwards.
///
/// Contracts see it as these three. Its type keeps two facts. If the device is no member afterwards, the demand is
/// 0 at every step. Otherwise it is the bid of the kind in the state, for every kind except manual.
#[derive(Drop)]
pub struct Made {
    next: Next,
    kind: Kind,
    demand: ArrayBid,
}

impl Model for Made {
    ghost use Rattle.pm_agent.specs.MadeBids.{MadeBid, IsMade};

    ghost Value = { MadeBid };

    ghost view = { λ m. record { next = m.next; kind = m.kind; demand = m.demand } };

    ghost invariant = { λ m. IsMade (record { next = m.next; kind = m.kind; demand = m.demand }) };
}

impl Made {
    /// A device that has not changed yet: it is no member.
    pub(crate) fn unchanged(kind: Kind, device: u32, none: ArrayBid) -> Made
        requires { none ≡ zeros (length none) }
        ensures device { result.next.device ≡ device }
        ensures kind { result.kind ≡ kind }
        ensures demand { result.demand ≡ none }
    {
        Made {
            next: Next {
                device,
                number: 0,
                member: false,
                state: DeviceState(0),
            },
            kind,
            demand: none,
        }
    }

    /// What the next change of the device makes of it.
    pub fn next(&self) -> Next
        ensures next { result ≡ self.now.next }
        ensures made { IsMade self.now }
    {
        self.next
    }

    /// The device's kind.
    pub fn kind(&self) -> Kind
        ensures kind { result ≡ self.now.kind }
        ensures made { IsMade self.now }
    {
        self.kind
    }

    /// The device's demand after the change, in watts at each step: 0 if it is no member, otherwise its kind's bid in
    /// its state. Of a manual device that is a member the type keeps nothing of the demand. It is what
    /// [`crate::DeviceAgent::work`] made of the arrays that it was handed.
    pub fn demand(&self) -> &ArrayBid
        ensures demand { result.now ≡ self.now.demand }
        ensures made { IsMade self.now }
    {
        &self.demand
    }

    /// What the next change makes of a device of this kind, with its demand in a bid that is handed over. It is for one who hands
    /// each bid on for good. Whoever keeps its bid has a [`crate::DeviceAgent`]. The state fits the kind, and the arrays have as
    /// many steps as the bid.
    pub fn new(kind: Kind, next: Next, arrays: &[ArrayBid], bid: ArrayBid) -> Made
        requires valid { IsTrue (is_valid kind) }
        requires fits { IsTrue (state_fits kind next.state.0) }
        requires arrays { HaveSteps (length bid) arrays.now }
        ensures next { result.next ≡ next }
        ensures kind { result.kind ≡ kind }
        ensures demand { result.demand ≡ demand_after_change kind next arrays.now (length bid) }
        ensures steps { length result.demand ≡ length bid }
        ensures made { IsMade result }
    {
        let mut demand = bid;
        fill_demand(&kind, next, arrays, &mut demand);
        Made { next, kind, demand }
    }

    /// The demand alone.
    pub fn into_demand(self) -> ArrayBid
        ensures demand { result ≡ self.demand }
        ensures made { IsMade self }
    {
        self.demand
    }

    /// Makes the demand that of the next change.
    pub(crate) fn follow(&mut self, next: Next, arrays: &[ArrayBid])
        requires valid { IsTrue (is_valid self.old.kind) }
        requires fits { IsTrue (state_fits self.old.kind next.state.0) }
        requires arrays { HaveSteps (length self.old.demand) arrays.now }
        ensures next { self.new.next ≡ next }
        ensures kind { self.new.kind ≡ self.old.kind }
        ensures demand { self.new.demand ≡ demand_after_change self.old.kind next arrays.now
            (length self.old.demand) }
        ensures steps { length self.new.demand ≡ length self.old.demand }
        ensures made { IsMade self.new }
    {
        self.next = next;
        fill_demand(&self.kind, next, arrays, &mut self.demand);
    }
}

/// Makes `out` the demand of a device of this kind after a change.
fn fill_demand(kind: &Kind, next: Next, arrays: &[ArrayBid], out: &mut ArrayBid)
    requires valid { IsTrue (is_valid kind.now) }
    requires fits { IsTrue (state_fits kind.now next.state.0) }
    requires arrays { HaveSteps (length out.old) arrays.now }
    ensures demand { out.new ≡ demand_after_change kind.now next arrays.now (length out.old) }
    ensures steps { length out.new ≡ length out.old }
{
    if next.member {
        fill_bid(kind, next.state, arrays, out);
    } else {
        out.set_zero(&mut uncounted());
    }
}
