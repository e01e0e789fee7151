//! Laws: ports name the held price, and a quiet cluster is over all current bids.

ghost use Rattle.std.specs.Prelude.{◌≡◌, ℕ, ◌<◌, true, Some};
ghost use Rattle.pm_session.specs.Ports.{held_by};
ghost use Rattle.pm_session.specs.declared.price.Held.{Held};
ghost use Rattle.pm_market.specs.Lists.{IsLeaf, IsConcentrator};
ghost use Rattle.pm_market.specs.State.{State};
ghost use Rattle.pm_market.specs.Moves.{Idle};
ghost use Rattle.pm_plan.specs.Kept.{IsPlan};
ghost use Rattle.pm_plan.specs.Plans.{PlanData, is_limited};
ghost use Rattle.pm_plan.specs.Auction.{power, limited_line};
ghost use Rattle.pm_plan.specs.States.{state};
ghost use Rattle.pm_plan.specs.Market.{plan_lists};
ghost use Rattle.pm_stands.specs.Core.{Core, seat_of};
ghost use Rattle.pm_stands.specs.Stands.{StandsFor};
ghost use Rattle.pm_stands.specs.Current.{held_price, IsCurrent, kept_power, kept_line};

/// The port of a device answers the price that the market's definition names. It is that of the clearing passed to the
/// device last, unless it is of a former membership. Its step is a step of the basis.
#[tactic(auto, using(crate::proofs::Holding::held_agrees, crate::proofs::Holding::held_inside))]
pub fn ports_answer_the_held_price()
    ensures held { (plan : PlanData) (c : Core) (s : State) (d : ℕ) → IsPlan plan →
        StandsFor plan c s → IsLeaf (plan_lists plan) d →
        held_by (seat_of c d) ≡ held_price plan s d }
    ensures inside { (plan : PlanData) (c : Core) (s : State) (d : ℕ) (price : Held) → IsPlan plan →
        StandsFor plan c s → IsLeaf (plan_lists plan) d →
        held_by (seat_of c d) ≡ Some price → price.step < plan.basis.steps }
{}

/// If nothing is pending, everyone is over all current bids: the last clearing, each member's price, the auctioneer's sum
/// and step. Nothing of a concentrator is unanswered. The powers that devices take by their prices, and the lines of
/// limited concentrators, are those of the plain auction over the changes made.
#[tactic(auto, using(crate::proofs::AllCurrent::quiet_current, crate::proofs::QuietPowers::power_current, crate::proofs::QuietPowers::line_current))]
pub fn quiet_clusters_are_current()
    ensures current { (plan : PlanData) (c : Core) (s : State) → IsPlan plan → StandsFor plan c s →
        Idle (plan_lists plan) s → IsCurrent plan c s }
    ensures powers { (plan : PlanData) (c : Core) (s : State) (d : ℕ) → IsPlan plan →
        StandsFor plan c s → Idle (plan_lists plan) s →
        IsLeaf (plan_lists plan) d → kept_power plan c d ≡ power plan (state plan) s.counts d }
    ensures lines { (plan : PlanData) (c : Core) (s : State) (g : ℕ) → IsPlan plan →
        StandsFor plan c s → Idle (plan_lists plan) s →
        IsConcentrator (plan_lists plan) g → is_limited plan g ≡ true →
        kept_line plan c g ≡ limited_line plan (state plan) s.counts g }
{}
