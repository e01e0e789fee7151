//! Posts a change that an agent made, and tells which refusal it met.

ghost use Rattle.std.specs.Prelude.{◌≡◌, ◌⊎◌, length, Some, None};
ghost use Rattle.pm_market.specs.Lists.{IsLeaf};
ghost use Rattle.pm_market.specs.declared.moves.Move.{Move};
ghost use Rattle.pm_plan.specs.Plans.{node, kind_of};
ghost use Rattle.pm_plan.specs.Market.{plan_lists};
ghost use Rattle.pm_cluster.specs.Next.{IsNext};
ghost use Rattle.pm_board.specs.Boards.{board_state, AddsLine};
ghost use Rattle.pm_turns.specs.declared.posting.Posted.TheVariants as posted;

use pm_agent::Made;
use pm_bid::ArrayBid;
use pm_board::Board;
use pm_cluster::ChangeFault;

/// What came of posting a change of a device.
#[derive(Clone, Copy, Debug, PartialEq, Eq)]
pub enum Posted {
    /// It was made, and its line joined the journal.
    Made,
    /// It is not the device's next change: the device asks for its next one anew.
    Stale,
    /// It is the device's next change, but of another kind than the plan's: to ask anew would give the same.
    Unfit,
}

/// Posts what was made of a device's next change. Where the board refuses it, nothing changed, and the answer says whether the
/// device's next change is another one by now. The second part is a bid of as many steps in exchange for the demand; where the
/// board refuses the change, it is the demand itself.
pub fn post_made(board: &mut Board, made: Made) -> (Posted, ArrayBid)
    requires steps { length made.demand ≡ board.old.plan.basis.steps }
    ensures plan { board.new.plan ≡ board.old.plan }
    ensures ends { board.new.ends ≡ board.old.ends }
    ensures adds { result.0 ≡ posted.Made →
        AddsLine board.old board.new
        (record { what = Move.Change made.next.device made.next.number; held = None }) }
    ensures stale { let s = board_state board.old in
        result.0 ≡ posted.Stale → IsLeaf (plan_lists board.old.plan) made.next.device →
        IsNext board.old.plan s.closed s.counts made.next.device made.next → ⊥ }
    ensures unfit { let s = board_state board.old in
        result.0 ≡ posted.Unfit → IsNext board.old.plan s.closed s.counts made.next.device made.next
        × (kind_of (node board.old.plan made.next.device) ≡ Some made.kind → ⊥) }
    ensures unchanged { (result.0 ≡ posted.Stale) ⊎ (result.0 ≡ posted.Unfit) →
        board.new ≡ board.old }
    ensures back { (result.0 ≡ posted.Stale) ⊎ (result.0 ≡ posted.Unfit) →
        result.1 ≡ made.demand }
    ensures same_length { length result.1 ≡ length made.demand }
{
    let next = made.next();
    let (outcome, other) = board.post_owned(made);
    let Err(fault) = outcome else {
        return (Posted::Made, other);
    };
    let ChangeFault::NotNext { next: due } = fault else {
        return (Posted::Unfit, other);
    };
    if due == Some(next) {
        return (Posted::Unfit, other);
    }
    (Posted::Stale, other)
}
