//! What a tick charges, read from the end of the phase before it.

ghost use Rattle.std.specs.Prelude.{◌≡◌, ◌==◌, ◌≤◌, ◌<◌, [], All, IfOk, find, length};
ghost use Rattle.pm_plan.specs.Plans.{group, phases};
ghost use Rattle.pm_plan.specs.Kept.{IsPlan};
ghost use Rattle.pm_plan.specs.States.{all_ends};
ghost use Rattle.pm_report.specs.Report.{ends_of};
ghost use Rattle.pm_bill.specs.Runs.{cut_before};
ghost use Rattle.pm_bill.specs.Charges.{price_in_end, member_share, member_shares, free_power, limited_group, end_groups, MayBeCharged, AreCharges};

use crate::share::{GroupSum, Share};
use pm_plan::{LimitedLine, MemberLine, PhaseEnd, Plan};
use pm_tree::NodeId;
use std::alloc::{AllocError, Global};

/// What is charged in a tick: the share of each member, and what each group comes to.
#[derive(Drop)]
pub(crate) struct Charges {
    pub(crate) shares: Vec<Share>,
    pub(crate) groups: Vec<GroupSum>,
}

impl Charges {
    /// The charges if no device is a member.
    fn none(alloc: Global) -> Charges
        ensures shares { result.shares.items ≡ [] }
        ensures groups { result.groups.items ≡ [] }
    {
        Charges {
            shares: Vec::new(alloc),
            groups: Vec::new(alloc),
        }
    }

    /// The charges of the members and groups at a phase's end.
    fn at(alloc: Global, plan: &Plan, end: &PhaseEnd) -> Result<Charges, AllocError>
        requires { MayBeCharged plan.now end.now.end }
        ensures shares { IfOk result (λ charges. charges.shares.items
            ≡ member_shares plan.now end.now.end) }
        ensures groups { IfOk result (λ charges. charges.groups.items
            ≡ end_groups plan.now end.now.end) }
    {
        Ok(Charges {
            shares: member_shares(alloc, plan, end)?,
            groups: end_groups(alloc, plan, end)?,
        })
    }

    /// The charges of a tick phase: those at the end of the phase before. The first phase has no charges.
    pub(crate) fn before(
        alloc: Global,
        plan: &Plan,
        ends: &[PhaseEnd],
        phase: u32,
    ) -> Result<Charges, AllocError>
        requires sound { IsPlan plan.now }
        requires first { 1 ≤ phase }
        requires last { phase ≤ phases plan.now }
        requires ends { ends_of ends.now ≡ all_ends plan.now }
        ensures { IfOk result (λ charges. AreCharges plan.now
            (cut_before plan.now phase) charges.shares.items charges.groups.items) }
    {
        if phase == 1 {
            return Ok(Charges::none(alloc));
        }
        Charges::at(alloc, plan, &ends[phase as usize - 2])
    }
}

/// The group of a node: the limited concentrator above it, 0 if there is no such one.
fn group_of(plan: &Plan, node: u32) -> u32
    requires { node ≤ length plan.now.nodes }
    ensures { result ≡ group plan.now node }
{
    match plan.group(NodeId(node)) {
        Some(group) => group.0,
        None => 0,
    }
}

/// The line of a limited concentrator, if it has one.
fn line_of(lines: &[LimitedLine], node: u32) -> Option<LimitedLine>
    ensures { result ≡ find (λ line. line.node == node) lines.now }
{
    lines.iter().copied().find(|line| line.node == node)
}

/// The price of a group at an end.
fn price_of(plan: &Plan, end: &PhaseEnd, group: u32) -> i64
    requires { All (λ line. line.step < plan.now.basis.steps) end.now.end.limited }
    ensures { result ≡ price_in_end plan.now end.now.end group }
{
    match line_of(end.limited(), group) {
        Some(line) => plan.basis().price(line.step as usize),
        None => end.price(),
    }
}

/// The share of a member at an end.
fn member_share(plan: &Plan, end: &PhaseEnd, member: &MemberLine) -> Share
    requires node { member.now.node ≤ length plan.now.nodes }
    requires steps { All (λ line. line.step < plan.now.basis.steps) end.now.end.limited }
    ensures { result ≡ member_share plan.now end.now.end member.now }
{
    Share {
        node: member.node,
        price: price_of(plan, end, group_of(plan, member.node)),
        power: member.power,
    }
}

/// The shares of all members at an end.
fn member_shares(alloc: Global, plan: &Plan, end: &PhaseEnd) -> Result<Vec<Share>, AllocError>
    requires { MayBeCharged plan.now end.now.end }
    ensures { IfOk result (λ shares. shares.items ≡ member_shares plan.now end.now.end) }
{
    let mut shares = Vec::with_capacity(alloc, end.members().len())?;
    for member in end.members() {
        shares.push(member_share(plan, end, member))?;
    }
    Ok(shares)
}

/// The power of the members below no limited concentrator, in watts.
fn free_power(plan: &Plan, end: &PhaseEnd) -> i64
    requires { MayBeCharged plan.now end.now.end }
    ensures { result ≡ free_power plan.now end.now.end }
{
    let mut power = 0;
    for member in end.members() {
        if group_of(plan, member.node) == 0 {
            power += member.power;
        }
    }
    power
}

/// What the group of a line comes to.
fn limited_group(plan: &Plan, line: &LimitedLine) -> GroupSum
    requires { line.now.step < plan.now.basis.steps }
    ensures { result ≡ limited_group plan.now line.now }
{
    GroupSum {
        price: plan.basis().price(line.step as usize),
        power: line.total,
    }
}

/// What each group comes to at an end: the members below no limited concentrator, then each limited concentrator.
fn end_groups(alloc: Global, plan: &Plan, end: &PhaseEnd) -> Result<Vec<GroupSum>, AllocError>
    requires { MayBeCharged plan.now end.now.end }
    ensures { IfOk result (λ groups. groups.items ≡ end_groups plan.now end.now.end) }
{
    let mut groups = Vec::new(alloc);
    groups.push(GroupSum {
        price: end.price(),
        power: free_power(plan, end),
    })?;
    for line in end.limited() {
        groups.push(limited_group(plan, line))?;
    }
    Ok(groups)
}
