//! The end of a phase: its price and total, and the lines of members and limited concentrators.

ghost use Rattle.std.specs.Prelude.{◌≡◌, ◌+◌, ◌-◌, ◌<◌, ◌≤◌, ◌++◌, ◌∷◌, [], IfOk, length};
ghost use Rattle.pm_basis.specs.Prices.{price_at};
ghost use Rattle.pm_plan.specs.Ends.{no_end};

use crate::plan::Plan;
use pm_basis::Basis;
use std::alloc::{AllocError, Global};
use std::marker::Model;

/// A member at a phase's end.
#[derive(Clone, Copy, Debug, PartialEq, Eq)]
pub struct MemberLine {
    /// The device's node.
    pub node: u32,
    /// Its power in watts, positive if it takes power: its bid at the step of its group.
    pub power: i64,
    /// The number of its bid, which is that of its last change.
    pub number: u32,
}

/// A limited concentrator at a phase's end.
#[derive(Clone, Copy, Debug, PartialEq, Eq)]
pub struct LimitedLine {
    /// The concentrator's node.
    pub node: u32,
    /// The step of the nodes below it.
    pub step: u32,
    /// The sum of the bids below it at that step, in watts.
    pub total: i64,
}

/// A phase's end: the step at which the cluster balances, with its price and the total there. It has the members
/// and the limited concentrators, both in file order.
///
/// Contracts see it as these, and for how many more members and limited concentrators it has room.
#[derive(Debug, Drop)]
pub struct PhaseEnd {
    step: u32,
    price: i64,
    total: i64,
    members: Vec<MemberLine>,
    limited: Vec<LimitedLine>,
}

impl Model for PhaseEnd {
    ghost use Rattle.std.specs.Prelude.{◌-◌, length};
    ghost use Rattle.std.specs.Vec.{vec_capacity};
    ghost use Rattle.pm_plan.specs.Ends.{EndValue};

    ghost Value = { EndValue };

    ghost view = { λ e. record {
      end = record { step = e.step; price = e.price; total = e.total; members = e.members.items; limited = e.limited.items };
      member_room = vec_capacity e.members - length e.members.items;
      limited_room = vec_capacity e.limited - length e.limited.items;
    } };
}

impl PhaseEnd {
    /// The end at a step of a market basis, whose price it has: the total there in watts, and the lines in file order.
    pub fn new(
        basis: &Basis,
        step: u32,
        total: i64,
        members: Vec<MemberLine>,
        limited: Vec<LimitedLine>,
    ) -> PhaseEnd
        requires { step < basis.now.steps }
        ensures { result.end ≡ record {
          step = step;
          price = price_at basis.now step;
          total = total;
          members = members.items;
          limited = limited.items;
        } }
    {
        PhaseEnd {
            step,
            price: basis.price(step as usize),
            total,
            members,
            limited,
        }
    }

    /// An end without lines, at step, price and total 0, with room for every device and every limited concentrator of
    /// a plan.
    pub fn vacant(alloc: Global, plan: &Plan) -> Result<PhaseEnd, AllocError>
        ensures end { IfOk result (λ e. e.end ≡ no_end) }
        ensures members { IfOk result (λ e. length plan.now.entries ≤ e.member_room) }
        ensures limited { IfOk result (λ e. length plan.now.entries ≤ e.limited_room) }
    {
        let nodes = plan.tree().len() as usize;
        Ok(PhaseEnd {
            step: 0,
            price: 0,
            total: 0,
            members: Vec::with_capacity(alloc, nodes)?,
            limited: Vec::with_capacity(alloc, nodes)?,
        })
    }

    /// Makes it the end at a step of a market basis, whose price it has, with the total there in watts. It has no
    /// lines then; the room of its former lines is room for new ones.
    pub fn begin(&mut self, basis: &Basis, step: u32, total: i64)
        requires { step < basis.now.steps }
        ensures end { self.new.end
            ≡ record {
              step = step;
              price = price_at basis.now step;
              total = total;
              members = [];
              limited = [];
            } }
        ensures members { self.new.member_room
            ≡ self.old.member_room + length self.old.end.members }
        ensures limited { self.new.limited_room
            ≡ self.old.limited_room + length self.old.end.limited }
    {
        self.step = step;
        self.price = basis.price(step as usize);
        self.total = total;
        self.members.clear();
        self.limited.clear();
    }

    /// Adds the line of the next member in file order, within the room.
    pub fn add_member(&mut self, line: MemberLine)
        requires room { 1 ≤ self.old.member_room }
        ensures end { self.new.end ≡ record self.old.end
            { members = self.old.end.members ++ line ∷ [] } }
        ensures members { self.old.member_room ≤ self.new.member_room + 1 }
        ensures limited { self.new.limited_room ≡ self.old.limited_room }
    {
        let _ = self.members.push(line);
    }

    /// Adds the line of the next limited concentrator in file order, within the room.
    pub fn add_limited(&mut self, line: LimitedLine)
        requires room { 1 ≤ self.old.limited_room }
        ensures end { self.new.end ≡ record self.old.end
            { limited = self.old.end.limited ++ line ∷ [] } }
        ensures members { self.new.member_room ≡ self.old.member_room }
        ensures limited { self.old.limited_room ≤ self.new.limited_room + 1 }
    {
        let _ = self.limited.push(line);
    }

    /// The step at which the cluster balances.
    pub fn step(&self) -> u32
        ensures { result ≡ self.now.end.step }
    {
        self.step
    }

    /// The price of that step, in price units.
    pub fn price(&self) -> i64
        ensures { result ≡ self.now.end.price }
    {
        self.price
    }

    /// The total of all bids at that step, in watts.
    pub fn total(&self) -> i64
        ensures { result ≡ self.now.end.total }
    {
        self.total
    }

    /// The members in file order.
    pub fn members(&self) -> &[MemberLine]
        ensures { result.now ≡ self.now.end.members }
    {
        &self.members
    }

    /// The limited concentrators in file order.
    pub fn limited(&self) -> &[LimitedLine]
        ensures { result.now ≡ self.now.end.limited }
    {
        &self.limited
    }
}
