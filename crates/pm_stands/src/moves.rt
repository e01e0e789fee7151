//! Laws: learning, publishing and clearing keep the relation, and nothing pending means idle.

ghost use Rattle.std.specs.Prelude.{◌≡◌, ℕ, ◌↔◌, false, List, Option};
ghost use Rattle.pm_tree.specs.Entries.{place_of};
ghost use Rattle.pm_market.specs.Lists.{parent, IsNode, IsConcentrator};
ghost use Rattle.pm_market.specs.State.{State};
ghost use Rattle.pm_market.specs.Moves.{Legal, Idle};
ghost use Rattle.pm_cache.specs.Learning.{bid_demand};
ghost use Rattle.pm_session.specs.Links.{Session, UpBid, BidTaken, NothingWaited};
ghost use Rattle.pm_concentrator.specs.Concentrators.{Gathered};
ghost use Rattle.pm_auctioneer.specs.Auctions.{Auction};
ghost use Rattle.pm_plan.specs.Kept.{IsPlan};
ghost use Rattle.pm_plan.specs.Plans.{PlanData};
ghost use Rattle.pm_plan.specs.Market.{plan_lists};
ghost use Rattle.pm_stands.specs.Core.{Core, row_at, uplink_of, concentrator_of, node_cache};
ghost use Rattle.pm_stands.specs.Rows.{CannotPublish};
ghost use Rattle.pm_stands.specs.Made.{DidLearn, learnt_core, DidPublish, published_core, DidClear, cleared_core};
ghost use Rattle.pm_stands.specs.Needs.{MayLearn, MayPublish, MayClear};
ghost use Rattle.pm_stands.specs.Quiet.{IsQuiet};
ghost use Rattle.pm_stands.specs.Stands.{StandsFor, Stands, MakesMove};

use pm_market::Move;

/// A parent learns what it took from a child's link. The cluster that stood for a state stands for the state after the
/// legal `Learn` of that child and number. A bid that was taken from the link may be learnt, and is newer than the one
/// learnt last. If nothing waited on the link, no `Learn` of the child is legal.
pub fn learning_keeps_the_market()
    ensures made { (plan : PlanData) (c : Core) (s : State) (x : ℕ) (links : List (List Session))
        (auctioneer : Auction)
        (concentrators : List (Option Gathered)) (bid : UpBid) → IsPlan plan → StandsFor plan c s →
        IsNode (plan_lists plan) x →
        DidLearn c links auctioneer concentrators bid (parent (plan_lists plan) x)
        (place_of plan.entries x) →
        MakesMove plan (learnt_core c links auctioneer concentrators) s (Move.Learn x bid.number) }
    ensures condition { (plan : PlanData) (c : Core) (x : ℕ) (bid : UpBid) (new : Session) →
        IsPlan plan → ∥ Stands plan c ∥₁ →
        IsNode (plan_lists plan) x → BidTaken (uplink_of plan c x) new bid →
        MayLearn (node_cache c (parent (plan_lists plan) x)) (place_of plan.entries x)
        bid.number (bid_demand bid.gone bid.demand) }
    ensures nothing { (plan : PlanData) (c : Core) (s : State) (x n : ℕ) (new : Session) →
        StandsFor plan c s →
        NothingWaited (uplink_of plan c x).up (uplink_of plan c x) new →
        Legal (plan_lists plan) s (Move.Learn x n) → ⊥ }
{}

/// A concentrator publishes the sum of its children's bids on the link to its parent. The cluster that stood for a state
/// stands for the state after the legal `Publish`. What the code needs always holds. If the concentrator has nothing
/// new, or its window is full, no `Publish` of it is legal.
pub fn publishing_keeps_the_market()
    ensures made { (plan : PlanData) (c : Core) (s : State) (x : ℕ) (links : List (List Session))
        (concentrators : List (Option Gathered)) (n : ℕ) →
        IsPlan plan → StandsFor plan c s → IsConcentrator (plan_lists plan) x →
        DidPublish c x links concentrators n (parent (plan_lists plan) x)
        (place_of plan.entries x) →
        MakesMove plan (published_core c links concentrators) s (Move.Publish x n) }
    ensures condition { (plan : PlanData) (c : Core) (x : ℕ) → IsPlan plan → ∥ Stands plan c ∥₁ →
        IsConcentrator (plan_lists plan) x →
        MayPublish (concentrator_of c x) (uplink_of plan c x) }
    ensures nothing { (plan : PlanData) (c : Core) (s : State) (x n : ℕ) → IsPlan plan →
        StandsFor plan c s → CannotPublish (concentrator_of c x) →
        Legal (plan_lists plan) s (Move.Publish x n) → ⊥ }
{}

/// The auctioneer clears, and offers the price to its children. The cluster that stood for a state stands for the state
/// after the legal `Clear`. What the code needs always holds. If the auctioneer learnt nothing since its last clearing,
/// no `Clear` is legal.
pub fn clearing_keeps_the_market()
    ensures made { (plan : PlanData) (c : Core) (s : State) (links : List (List Session))
        (auctioneer : Auction) (index step : ℕ) →
        IsPlan plan → StandsFor plan c s → DidClear c links auctioneer index step →
        MakesMove plan (cleared_core c links auctioneer) s (Move.Clear index) }
    ensures condition { (plan : PlanData) (c : Core) → IsPlan plan → ∥ Stands plan c ∥₁ →
        MayClear c.auctioneer (row_at c.links 0) }
    ensures nothing { (plan : PlanData) (c : Core) (s : State) (index : ℕ) → StandsFor plan c s →
        c.auctioneer.changed ≡ false →
        Legal (plan_lists plan) s (Move.Clear index) → ⊥ }
{}

/// A cluster in which nothing is pending stands for idle states alone. One that stands for an idle state has nothing
/// pending: what is pending is seen in what is kept.
#[tactic(auto, using(crate::proofs::MoveLaws::quiet_is_idle))]
pub fn nothing_pending_is_idle()
    ensures { (plan : PlanData) (c : Core) (s : State) → IsPlan plan → StandsFor plan c s →
        IsQuiet plan c ↔ Idle (plan_lists plan) s }
{}
