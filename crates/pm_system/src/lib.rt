//! The theorem over a whole tree across machines: a root, relays and devices' agents that do what the contracts of their code
//! say run the market, whatever is lost, repeated or reordered between them, and whoever restarts.
//!
//! A system is the values of its nodes with all messages that were ever sent. A step of it is one call of one node, on any
//! message that was ever sent to it. Each law is the contract of a function that has nothing to do.
#![tactic(auto)]

ghost use Rattle.std.specs.Prelude.{◌≡◌, ℕ, ◌<◌, ◌≤◌, ℤ, List, ◌++◌};
ghost use Rattle.std.specs.List.{AllPairs};
ghost use Rattle.pm_base.specs.declared.limits.Limits.{Limits};
ghost use Rattle.pm_market.specs.Lists.{Lists, IsLeaf};
ghost use Rattle.pm_net.specs.Pricing.{Pricing};
ghost use Rattle.pm_net.specs.Agents.{Setpoint};
ghost use Rattle.pm_net_plan.specs.Places.{Numbering, places_in};
ghost use Rattle.pm_relay_net.specs.RelayIs.{LimitsPassBy, GivesLimits};
ghost use Rattle.pm_system.specs.System.{System};
ghost use Rattle.pm_system.specs.Calls.{NodeCall, Does, SystemRuns, IsNoRestart, StaysUp};
ghost use Rattle.pm_system.specs.Given.{IsTreeMarket, IsGiven, placed_pricing, IsStarted};
ghost use Rattle.pm_system.specs.Market.{RunsTheMarket, KeepsTheLaw};
ghost use Rattle.pm_system.specs.Settled.{index_of_held, numbers_counted, IsSettledSystem, IsReachedSystem, IsToldSystem, IsTakenSystem, IsCurrentSystem};
ghost use Rattle.pm_system.specs.Flow.{FlowsIn, TakeWhatWasTold};
ghost use Rattle.pm_system.specs.Expiry.{RelayExpires, RootExpires, AreTwoCalls};
ghost use Rattle.pm_system.specs.Expiry.{DeviceOffersAnew, offers_anew};
ghost use Rattle.pm_system.specs.Frames.{AreSent};
ghost use Rattle.pm_system.specs.Worked.{Settles};
ghost use Rattle.pm_system.specs.WorkedDeep.{DeepSettles};

use pm_control::agents_come_back;

/// A law: a system whose nodes came up for the first time is, after any calls, what a network with devices has after some
/// events. So its prices and setpoints are of one legal journal. Each price that was ever sent is due to its receiver, and
/// names the receiver's own number in the cut of its clearing, and its local step there. Each setpoint that was ever given is
/// the power of the device's own bid of its number there, at that step.
pub fn systems_run_the_market()
    ensures given { (lists : Lists) (steps : ℕ) (demand : ℕ → ℕ → List ℤ)
        (limits : ℕ → ℕ → Limits) (giver : ℕ → ℕ) → IsGiven lists steps demand limits giver →
        IsTreeMarket lists (placed_pricing lists steps demand limits giver) (places_in lists) }
    ensures run { (lists : Lists) (p : Pricing) (numbering : Numbering) (sys new : System)
        (calls : List NodeCall) → IsTreeMarket lists p numbering → IsStarted lists p sys →
        SystemRuns lists p numbering sys calls new → RunsTheMarket lists p numbering calls new }
    ensures goes_on { (lists : Lists) (p : Pricing) (numbering : Numbering)
        (before more : List NodeCall) (sys new : System) → IsTreeMarket lists p numbering →
        RunsTheMarket lists p numbering before sys → SystemRuns lists p numbering sys more new →
        RunsTheMarket lists p numbering (before ++ more) new }
    ensures named { (lists : Lists) (p : Pricing) (numbering : Numbering) (calls : List NodeCall)
        (sys : System) → IsTreeMarket lists p numbering →
        RunsTheMarket lists p numbering calls sys → KeepsTheLaw lists p sys }
{
    // The call tells a fact: an agent that comes back with what it stored is the agent after a restart in the network.
    agents_come_back();
}

/// A law: where a device gives a relay's limits, each of its numbers gives those of this number, and no number of another child
/// gives any. So its bids are learnt as limits, and those of the others as bids.
pub fn devices_give_limits()
    ensures gives { (lists : Lists) (steps : ℕ) (demand : ℕ → ℕ → List ℤ)
        (limits : ℕ → ℕ → Limits) (giver : ℕ → ℕ) (c n : ℕ) →
        GivesLimits (placed_pricing lists steps demand limits giver) c (giver c) n (limits c n) }
    ensures passes { (lists : Lists) (steps : ℕ) (demand : ℕ → ℕ → List ℤ)
        (limits : ℕ → ℕ → Limits) (giver : ℕ → ℕ) (c x : ℕ) → (giver c ≡ x → ⊥) →
        LimitsPassBy (placed_pricing lists steps demand limits giver) c x }
{}

/// A law: a relay or a root that lets a device go, by its call `expire`, does what two calls of a system do: a number of the
/// parent's is given for the device, and the parent takes that bid. So all that holds of runs of a system holds with it. The
/// number is odd and at most one above the last that the device gave; so no bid of the device has it, or will have it.
pub fn expiring_is_two_calls()
    ensures relay { (lists : Lists) (p : Pricing) (numbering : Numbering) (calls : List NodeCall)
        (sys new : System) (d : ℕ) → IsTreeMarket lists p numbering →
        RunsTheMarket lists p numbering calls sys →
        (did : RelayExpires lists p numbering sys d new) →
        AreTwoCalls lists p numbering sys d did.number new }
    ensures root { (lists : Lists) (p : Pricing) (numbering : Numbering) (calls : List NodeCall)
        (sys new : System) (d : ℕ) → IsTreeMarket lists p numbering →
        RunsTheMarket lists p numbering calls sys →
        (did : RootExpires lists p numbering sys d new) →
        AreTwoCalls lists p numbering sys d did.number new }
{}

/// A law: an agent that offers anew, since its parent let the device go, does what two calls of a system do. It leaves, and stops
/// before that is sent; and it offers. So all that holds of runs of a system holds with its call `take_old`.
pub fn offering_anew_is_two_calls()
    ensures { (lists : Lists) (p : Pricing) (numbering : Numbering) (sys new : System)
        (d kept : ℕ) → DeviceOffersAnew lists p sys d kept new →
        SystemRuns lists p numbering sys (offers_anew d) new }
{}

/// A law: nobody goes back, except over its own restart. No call lowers the index of the price that a node holds; a restart
/// never raises it. The setpoints of a device that did not restart have rising indices.
pub fn systems_do_not_go_back()
    ensures back { (lists : Lists) (p : Pricing) (numbering : Numbering) (sys new : System)
        (call : NodeCall) (x : ℕ) → Does lists p numbering sys call new → IsNoRestart x call →
        index_of_held lists sys x ≤ index_of_held lists new x }
    ensures restarts { (lists : Lists) (p : Pricing) (numbering : Numbering) (sys new : System)
        (y k : ℕ) → Does lists p numbering sys (NodeCall.Restarts y k) new →
        index_of_held lists new y ≤ index_of_held lists sys y }
    ensures rising { (lists : Lists) (p : Pricing) (numbering : Numbering) (calls : List NodeCall)
        (sys : System) (d : ℕ) → RunsTheMarket lists p numbering calls sys → IsLeaf lists d →
        StaysUp d calls → AllPairs (λ (a b : Setpoint). a.index < b.index) (sys.setpoints d) }
{}

/// A law: settled is current, over restarts too. A system is settled if each parent holds the newest bid of its child, or the
/// newest number by which it let the child go, each node took the newest price that was sent to it, the root sent the price of
/// its newest clearing to each child that is not gone, and no node has anything new to send. Then the newest clearing is over
/// the newest bid of each device that was not let go since: each such member holds its price, under its own newest number and
/// with its local step. The control of a member that did not restart was told so. Of prices it is enough that each node which
/// its parent counts took one of the newest clearing, whatever else was sent; or that each device did, if no relay and no root
/// has heard anything that is not in its newest bid or clearing. Numbers and indices alone tell: a system whose devices took the
/// newest clearing, and in which the newest bid of each relay, and the newest clearing, are over the newest number of each
/// child, is current. If all below a relay take what they were told
/// so, and who is no member takes nothing, they take together what the relay announced.
pub fn settled_systems_are_current()
    ensures current { (lists : Lists) (p : Pricing) (numbering : Numbering) (calls : List NodeCall)
        (sys : System) → IsTreeMarket lists p numbering →
        RunsTheMarket lists p numbering calls sys → IsSettledSystem lists numbering sys →
        IsCurrentSystem lists p numbering calls sys }
    ensures reached { (lists : Lists) (p : Pricing) (numbering : Numbering) (calls : List NodeCall)
        (sys : System) → IsTreeMarket lists p numbering →
        RunsTheMarket lists p numbering calls sys → IsReachedSystem lists numbering sys →
        IsCurrentSystem lists p numbering calls sys }
    ensures told { (lists : Lists) (p : Pricing) (numbering : Numbering) (calls : List NodeCall)
        (sys : System) → IsTreeMarket lists p numbering →
        RunsTheMarket lists p numbering calls sys → IsToldSystem lists numbering sys →
        IsCurrentSystem lists p numbering calls sys }
    ensures taken { (lists : Lists) (p : Pricing) (numbering : Numbering) (calls : List NodeCall)
        (sys : System) → IsTreeMarket lists p numbering →
        RunsTheMarket lists p numbering calls sys → IsTakenSystem lists numbering sys →
        IsCurrentSystem lists p numbering calls sys }
    ensures flows { (lists : Lists) (p : Pricing) (numbering : Numbering) (sys : System) →
        IsTreeMarket lists p numbering →
        FlowsIn lists p (numbers_counted lists numbering sys)
        (TakeWhatWasTold lists p (numbers_counted lists numbering sys) sys) }
{}

/// A law: each message that was ever sent fits a frame. A bid has a number above 0, and a demand for each step that never rises
/// and is within ±1,000,000,000 watts; a price has a number and an index above 0, and one of the steps. So each may be given to
/// the call that takes it. Nothing is said of numbers being below 4,294,967,296: the calls that give numbers refuse there.
pub fn systems_send_frames()
    ensures { (lists : Lists) (p : Pricing) (numbering : Numbering) (sys new : System)
        (calls : List NodeCall) → IsTreeMarket lists p numbering → IsStarted lists p sys →
        SystemRuns lists p numbering sys calls new → AreSent lists p new }
{
    // The call tells a fact: an agent that comes back with what it stored is the agent after a restart in the network.
    agents_come_back();
}

/// A law: there are settled systems. In a worked one a price is lost, one comes twice, and a relay is killed between its Resume and
/// its bid; the calls run from a started system into a settled one. So it is current; and these are its prices and powers.
pub fn a_small_system_settles()
    ensures { Settles }
{
    // The call tells a fact: an agent that comes back with what it stored is the agent after a restart in the network.
    agents_come_back();
}

/// A law: there are settled systems with two relays on the way. In a worked one a relay with limits that bind is below another,
/// with a device below each: the calls run from a started system into a settled one, of which the numbers and indices alone
/// tell. What the devices were told takes together what each relay announced, within its limits.
pub fn a_deep_system_settles()
    ensures { DeepSettles }
{
    // The call tells a fact: an agent that comes back with what it stored is the agent after a restart in the network.
    agents_come_back();
}
