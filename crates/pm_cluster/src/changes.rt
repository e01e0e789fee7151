//! Makes the next change of a device, and offers its bid on the device's link.

ghost use Rattle.std.specs.Prelude.{◌≡◌, ℤ, ◌<◌, List, length, true, IfOk, IfErr, IfSome};
ghost use Rattle.std.specs.Prelude.{Some};
ghost use Rattle.std.specs.Option.{option_copied};
ghost use Rattle.pm_base.specs.Rows.{rows_of};
ghost use Rattle.pm_strategy.specs.Strategies.{bid_of};
ghost use Rattle.pm_market.specs.Lists.{parent};
ghost use Rattle.pm_market.specs.State.{State};
ghost use Rattle.pm_market.specs.declared.moves.Move.{Move};
ghost use Rattle.pm_offer.specs.Offers.{device_demand};
ghost use Rattle.pm_stands.specs.Stands.{StandsFor, MakesMove};
ghost use Rattle.pm_stands.specs.Made.{seat_after};
ghost use Rattle.pm_cluster.specs.Next.{count_of};
ghost use Rattle.pm_cluster.specs.Acts.{Follows, NotChanged};
ghost use Rattle.pm_cluster.specs.Offering.{IsFollowed, IsPlannedChange, HasLink, HasNotes, IsOffered, AreNoted, ChangesDevice};

use crate::cluster::Cluster;
use crate::fault::ChangeFault;
use crate::links::{exchange_bid, offer_bid};
use crate::tree::{parent_of, place_in_row};
use pm_agent::Made;
use pm_bid::{ArrayBid, uncounted};
use pm_device::{DeviceState, Kind, Next};
use pm_market::Move;
use pm_plan::{Plan, is_device};
use pm_session::{Link, Port};
use pm_strategy::fill_bid;
use pm_tree::NodeId;

impl<'p> Cluster<'p> {
    /// Makes the next change of a device and offers its bid to the device's parent.
    ///
    /// `NotNext` comes exactly if what was made is of no device of the plan, not the device's next change, or not
    /// of its kind. It has the next change. For a manual device the bid is the plan's array.
    pub fn change(&mut self, made: &Made) -> Result<Move, ChangeFault>
        requires steps { length made.now.demand ≡ self.old.plan.basis.steps }
        ensures plan { self.new.plan ≡ self.old.plan }
        ensures follows { IfOk result (λ what. Follows self.old.plan self.old.core.closed
            (count_of self.old.core) made.now) }
        ensures form { IfOk result (λ what. what
            ≡ Move.Change made.now.next.device made.now.next.number) }
        ensures made { (s : State) → StandsFor self.old.plan self.old.core s →
            IfOk result (MakesMove self.old.plan self.new.core s) }
        ensures refused { IfErr result
            (NotChanged self.old.plan self.old.core.closed (count_of self.old.core) made.now) }
        ensures unchanged { IfErr result (λ fault. self.new ≡ self.old) }
    {
        self.check_change(made)?;
        Ok(self.make(made.next(), made.kind(), own_demand(made)))
    }

    /// Makes the next change of a device as [`Cluster::change`] does, and copies nothing. The demand is the parent's from then on,
    /// and another bid of as many steps comes in its place; what that is at its steps is left open. If the change is refused, it is
    /// the demand itself.
    pub fn change_owned(&mut self, made: Made) -> (Result<Move, ChangeFault>, ArrayBid)
        requires steps { length made.demand ≡ self.old.plan.basis.steps }
        ensures plan { self.new.plan ≡ self.old.plan }
        ensures follows { IfOk result.0 (λ what. Follows self.old.plan self.old.core.closed
            (count_of self.old.core) made) }
        ensures form { IfOk result.0 (λ what. what
            ≡ Move.Change made.next.device made.next.number) }
        ensures made { (s : State) → StandsFor self.old.plan self.old.core s →
            IfOk result.0 (MakesMove self.old.plan self.new.core s) }
        ensures refused { IfErr result.0
            (NotChanged self.old.plan self.old.core.closed (count_of self.old.core) made) }
        ensures unchanged { IfErr result.0 (λ fault. self.new ≡ self.old) }
        ensures back { IfErr result.0 (λ fault. result.1 ≡ made.demand) }
        ensures same_length { length result.1 ≡ length made.demand }
    {
        if let Err(fault) = self.check_change(&made) {
            return (Err(fault), made.into_demand());
        }
        let next = made.next();
        let kind = made.kind();
        let mut demand = made.into_demand();
        if kind == Kind::Manual {
            fill_bid(&kind, next.state, self.plan.arrays(), &mut demand);
        }
        let what = self.make_owned(next, kind, &mut demand);
        (Ok(what), demand)
    }

    /// Checks that what was made is of a device of the plan, the device's next change, and of its kind.
    fn check_change(&self, made: &Made) -> Result<(), ChangeFault>
        ensures follows { IfOk result (λ _. Follows self.now.plan self.now.core.closed
            (count_of self.now.core) made.now) }
        ensures refused { IfErr result
            (NotChanged self.now.plan self.now.core.closed (count_of self.now.core) made.now) }
    {
        let next = made.next();
        let device = NodeId(next.device);
        if !is_device(self.plan, device) {
            return Err(ChangeFault::NotNext { next: None });
        }
        let due = self.next(device);
        let kind = self.plan.kind(device);
        if due != Some(next) || kind != made.kind() {
            return Err(ChangeFault::NotNext { next: due });
        }
        Ok(())
    }

    /// Makes the next change of a device. The bid of a member is the one given, and else computed by the plan.
    pub(crate) fn make(&mut self, next: Next, kind: Kind, given: Option<&ArrayBid>) -> Move
        requires follows { IsFollowed self.old.plan self.old.core next kind }
        requires given { next.member ≡ true →
            IfSome (option_copied given)
            (λ demand. demand ≡ device_demand self.old.plan next.device next.number) }
        ensures change { ChangesDevice next self.old self.new result }
    {
        fill_given(self.plan, next, kind, given, &mut self.spare);
        offer_demand(self.plan, next, kind, &mut self.spare, &mut self.links);
        note_change(
            next,
            &mut self.counts,
            &mut self.states,
            &mut self.members,
            &mut self.ports,
        )
    }

    /// Makes the next change of a device, whose bid is the one given if it is a member. Another bid comes in exchange.
    fn make_owned(&mut self, next: Next, kind: Kind, demand: &mut ArrayBid) -> Move
        requires follows { IsFollowed self.old.plan self.old.core next kind }
        requires given { next.member ≡ true →
            demand.old ≡ device_demand self.old.plan next.device next.number }
        requires steps { length demand.old ≡ self.old.plan.basis.steps }
        ensures change { ChangesDevice next self.old self.new result }
        ensures same_length { length demand.new ≡ length demand.old }
    {
        offer_demand(self.plan, next, kind, demand, &mut self.links);
        note_change(
            next,
            &mut self.counts,
            &mut self.states,
            &mut self.members,
            &mut self.ports,
        )
    }
}

/// Notes a change of a device: its number, the state, whether the device is a member, and what becomes of its port.
fn note_change(
    next: Next,
    counts: &mut Vec<u32>,
    states: &mut Vec<DeviceState>,
    members: &mut Vec<bool>,
    ports: &mut Vec<Port>,
) -> Move
    requires places { HasNotes next counts.old.items states.old.items members.old.items
        ports.old.items }
    ensures form { result ≡ Move.Change next.device next.number }
    ensures noted { AreNoted next counts.old.items counts.new.items states.old.items
        states.new.items members.old.items members.new.items ports.old.items ports.new.items }
{
    let at = next.device as usize;
    take_seat(&mut ports[at], members[at], next);
    counts[at] = next.number;
    states[at] = next.state;
    members[at] = next.member;
    Move::Change {
        device: next.device,
        number: next.number,
    }
}

/// Tells a port what a change makes of its device, which was a member before or was not.
fn take_seat(port: &mut Port, before: bool, next: Next)
    ensures { port.new ≡ seat_after port.old before next.member next.number }
{
    if !next.member {
        port.left();
    } else if !before {
        port.joined(next.number);
    }
}

/// The demand that was made for a change; None for a manual device, whose bids are the plan's arrays.
fn own_demand(made: &Made) -> Option<&ArrayBid>
    ensures demand { made.now.next.member ≡ true →
        IfSome (option_copied result) (λ demand. (arrays : List (List ℤ)) →
        demand ≡ bid_of made.now.kind made.now.next.state.0 arrays (length made.now.demand)) }
{
    if made.kind() == Kind::Manual {
        return None;
    }
    Some(made.demand())
}

/// Makes `out` the demand of a device after its next change if it is a member then: the one given, or else its bid by the plan.
fn fill_given(plan: &Plan, next: Next, kind: Kind, given: Option<&ArrayBid>, out: &mut ArrayBid)
    requires change { IsPlannedChange plan.now next kind (option_copied given) }
    requires room { length out.old ≡ plan.now.basis.steps }
    ensures demand { next.member ≡ true → out.new ≡ device_demand plan.now next.device next.number }
    ensures same_length { length out.new ≡ length out.old }
{
    if !next.member {
        return;
    }
    match given {
        Some(demand) => demand.copy_into(out, &mut uncounted()),
        None => fill_bid(&kind, next.state, plan.arrays(), out),
    }
}

/// Offers the demand of a device after its next change on the device's link: of a member the one given, in exchange for another
/// bid. Of a device that is no member the bid is gone, and the one given stays.
fn offer_demand(
    plan: &Plan,
    next: Next,
    kind: Kind,
    demand: &mut ArrayBid,
    links: &mut Vec<Vec<Link>>,
)
    requires change { IsPlannedChange plan.now next kind (Some demand.old) }
    requires link { HasLink plan.now next (rows_of links.old.items) demand.old }
    ensures offered { IsOffered plan.now next (rows_of links.old.items)
        (rows_of links.new.items) demand.new }
{
    let parent = parent_of(plan, NodeId(next.device));
    let place = place_in_row(plan, NodeId(next.device));
    if next.member {
        exchange_bid(links, parent, place, next.number, demand);
    } else {
        offer_bid(links, parent, place, next.number, None);
    }
}
