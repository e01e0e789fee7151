//! Lives of nodes.
#![tactic(auto)]

ghost use Rattle.std.specs.Prelude.{◌≡◌, ℕ, List, Some};
ghost use Rattle.pm_market.specs.Lists.{Lists, IsConcentrator, IsLeaf};
ghost use Rattle.pm_net.specs.Agents.{DeviceAgent};
ghost use Rattle.pm_net.specs.Pricing.{Pricing};
ghost use Rattle.pm_net_plan.specs.Places.{Numbering};
ghost use Rattle.pm_frames.specs.Stored.{StoredRelay, StoredRoot};
ghost use Rattle.pm_frames.specs.declared.relay.RelayFrame.{RelayFrame};
ghost use Rattle.pm_frames.specs.declared.root.RootFrame.{RootFrame};
ghost use Rattle.pm_frames.specs.declared.device.DeviceFrame.{DeviceFrame};
ghost use Rattle.pm_relay.specs.Roots.{RootValue};
ghost use Rattle.pm_services.specs.RelayAnswers.{OpenRelay};
ghost use Rattle.pm_services.specs.RelayWrites.{WaitingRelay};
ghost use Rattle.pm_services.specs.RelaySetups.{RelaySetup};
ghost use Rattle.pm_services.specs.RootAnswers.{OpenRoot};
ghost use Rattle.pm_basis.specs.Prices.{BasisValue};
ghost use Rattle.pm_frames.specs.declared.terms.RelayTerms.{RelayTerms};
ghost use Rattle.pm_frames.specs.declared.place.RelayPlace.{RelayPlace};
ghost use Rattle.pm_system.specs.System.{System};
ghost use Rattle.pm_system.specs.Calls.{NodeCall};
ghost use Rattle.pm_system.specs.Given.{IsTreeMarket};
ghost use Rattle.pm_system.specs.Market.{RunsTheMarket};
ghost use Rattle.pm_services.specs.Outputs.{Output};
ghost use Rattle.pm_lives.specs.RelayLife.{RelayStands, RelayMayRead, RelayLets, RelayFollows};
ghost use Rattle.pm_services.specs.RelayWrites.{WritesRelay};
ghost use Rattle.pm_lives.specs.RootLife.{RootMayRead, RootLets, RootFollows};
ghost use Rattle.pm_services.specs.RootWrites.{WritesRoot};
ghost use Rattle.pm_lives.specs.DeviceLife.{AgentStands, DeviceMayRead, told_of, DeviceFollows};
ghost use Rattle.pm_services.specs.DeviceWrites.{device_outs, agent_after};
ghost use Rattle.pm_system.specs.Given.{IsStarted};
ghost use Rattle.pm_lives.specs.Lives.{World, LifeStep, Live, IsNewWorld, LivesAreCalls, LivesKeepTheLaw, KeptMayBeLearnt, LetNone};
ghost use Rattle.std.specs.Prelude.{◌≤◌, Option, true};
ghost use Rattle.pm_market.specs.State.{no_changes};
ghost use Rattle.pm_relay_net.specs.RelayIs.{LimitsPassBy, GivesLimits};
ghost use Rattle.std.specs.List.{AllByRecursion};
ghost use Rattle.pm_base.specs.Cuts.{Cut};
ghost use Rattle.pm_base.specs.declared.limits.Limits.{Limits};
ghost use Rattle.pm_net.specs.Agents.{Offer};
ghost use Rattle.pm_frames.specs.Stored.{relay_resume_bytes, root_resume_bytes, agent_resume_bytes};
ghost use Rattle.pm_services.specs.Outputs.{outputs_bytes};
ghost use Rattle.std.specs.Prelude.{◌+◌, ◌++◌, None};
ghost use Rattle.pm_market.specs.Lists.{parent, IsNode};
ghost use Rattle.pm_net.specs.Messages.{BidMessage, PriceMessage};
ghost use Rattle.pm_basis.specs.declared.basis.Basis.{Basis};
ghost use Rattle.pm_frames.specs.RelayFrames.{relay_frame_bytes, IsRelayFormed};
ghost use Rattle.pm_frames.specs.RootFrames.{root_frame_bytes, IsRootFormed};
ghost use Rattle.pm_frames.specs.DeviceFrames.{device_frame_bytes, IsDeviceFormed};
ghost use Rattle.pm_frames.specs.declared.place.NodePlace.{NodePlace};
ghost use Rattle.pm_frames.specs.declared.parent.ParentFrame.{ParentFrame};
ghost use Rattle.pm_wire.specs.declared.answer.Reply.{Reply};
ghost use Rattle.pm_wire.specs.Answers.{answer_bytes};
ghost use Rattle.pm_frames.specs.declared.place.Stage.{Stage};
ghost use Rattle.pm_services.specs.RelayAnswers.{RelayServiceValue};
ghost use Rattle.pm_lives.specs.Outputs.{PriceWasSent, BidWasSent};
ghost use Rattle.pm_services.specs.Outputs.{up_bytes, down_frame_bytes};
ghost use Rattle.pm_lives.specs.Carrying.{bid_frame, limits_frame, price_frame, RelayIsGiven, RelayIsBack, RootIsGiven, RootIsBack, DeviceIsBack};
ghost use Rattle.pm_frames.specs.Stored.{IsNewestAccepted};
ghost use Rattle.pm_frames.specs.declared.stored.StoredAgent.{StoredAgent};
ghost use Rattle.pm_services.specs.DeviceAnswers.{DeviceServiceValue, AnswersDevice};
ghost use Rattle.std.specs.Prelude.{ℤ};
ghost use Rattle.pm_relay.specs.Relays.{RelayValue};
ghost use Rattle.pm_lives.specs.DeviceLife.{IsGivenOffer};
ghost use Rattle.pm_lives.specs.Worked.{new_world, LifeGoesOn};
ghost use Rattle.pm_lives.specs.Cutting.{IsCutStream};
ghost use Rattle.std.specs.Prelude.{◌<◌};
ghost use Rattle.std.specs.List.{AllPairs};
ghost use Rattle.pm_net.specs.Agents.{Setpoint};
ghost use Rattle.pm_system.specs.Flow.{FlowsIn, TakeWhatWasTold};
ghost use Rattle.pm_system.specs.Settled.{numbers_counted};
ghost use Rattle.pm_lives.specs.Lives.{BeginsOnce};
ghost use Rattle.pm_lives.specs.Settled.{IsSettledWorld, IsTakenWorld, IsCurrentWorld};
ghost use Rattle.pm_base.specs.Limits.{AreLimits};
ghost use Rattle.pm_lives.specs.Free.{LiveFree, HasLists};
ghost use Rattle.pm_lives.specs.WorkedLives.{LivesSettle};

use pm_system::{
    expiring_is_two_calls, settled_systems_are_current, systems_do_not_go_back,
    systems_run_the_market, systems_send_frames,
};

/// A law: what the service of a relay answers to a frame is some calls of the relay for which it stands. Each message in the
/// answer was sent by these calls, and each Resume says what may be stored.
pub fn relay_frames_are_calls()
    ensures { (lists : Lists) (p : Pricing) (numbering : Numbering) (before : List NodeCall)
        (sys : System) (c : ℕ) → IsTreeMarket lists p numbering →
        RunsTheMarket lists p numbering before sys → IsConcentrator lists c → (own : RelaySetup)
        (bounds : List Limits) (old after : WaitingRelay) (frame : RelayFrame)
        (outs : List (Output StoredRelay)) →
        RelayStands sys c old → RelayMayRead lists p numbering own sys c frame →
        WritesRelay own bounds old frame after outs →
        RelayFollows lists p numbering (RelayLets lists numbering sys c frame) sys c after outs }
{
    // The calls tell facts: what runs the market goes on to, and to let a child go is two calls of the system.
    systems_run_the_market();
    expiring_is_two_calls();
}

/// A law: so is what the service of an auctioneer answers.
pub fn auctioneer_frames_are_calls()
    ensures { (lists : Lists) (p : Pricing) (numbering : Numbering) (before : List NodeCall)
        (sys : System) → IsTreeMarket lists p numbering →
        RunsTheMarket lists p numbering before sys → (basis : BasisValue)
        (bounds : List Limits) (old after : RootValue) (frame : RootFrame)
        (outs : List (Output StoredRoot)) → sys.root ≡ old →
        RootMayRead lists p numbering sys frame → WritesRoot basis bounds old frame after outs →
        RootFollows lists p numbering (RootLets lists numbering sys frame) sys after outs }
{
    // The call tells a fact: to let a child go is two calls of the system.
    expiring_is_two_calls();
}

/// A law: so is what the service of a device's agent answers.
pub fn device_frames_are_calls()
    ensures { (lists : Lists) (p : Pricing) (numbering : Numbering) (sys : System) (d : ℕ) →
        IsLeaf lists d → (basis : BasisValue) (old : DeviceAgent) (frame : DeviceFrame) →
        AgentStands sys d old → DeviceMayRead lists p basis sys d frame →
        DeviceFollows lists p numbering sys d (agent_after old frame) (told_of old frame)
        (device_outs p.steps basis old frame) }
{}

/// A law: the lives of the nodes of a market keep its law. Each node has any number of lives, one after the other. A life is a
/// process that begins with what is stored of the node, and answers frames. Its carriers handle a first part of what it writes,
/// in order: they store each Resume before they hand out what stands behind it, and hand out bids, prices and setpoints. It ends
/// at any byte. Whatever was lost, repeated or reordered between the nodes, all that was handed out was sent in one run of a
/// system; so all prices and setpoints are of one legal journal. The limits that are stored of a relay are at each moment those of
/// a message of its giver, so it may come back with them. Nobody is let go but by an Expire.
pub fn lives_keep_the_law()
    ensures run { (lists : Lists) (p : Pricing) (numbering : Numbering) (start : System)
        (world new : World) (steps : List LifeStep) → IsTreeMarket lists p numbering →
        IsStarted lists p start → IsNewWorld p numbering world →
        Live lists p numbering world steps new →
        LivesAreCalls lists p numbering start steps new }
    ensures law { (lists : Lists) (p : Pricing) (numbering : Numbering) (start : System)
        (world new : World) (steps : List LifeStep) → IsTreeMarket lists p numbering →
        IsStarted lists p start → IsNewWorld p numbering world →
        Live lists p numbering world steps new →
        LivesKeepTheLaw lists p new }
    ensures learnt { (lists : Lists) (p : Pricing) (numbering : Numbering) (world new : World)
        (steps : List LifeStep) → IsNewWorld p numbering world →
        Live lists p numbering world steps new → (c : ℕ) → IsConcentrator lists c →
        KeptMayBeLearnt lists p numbering new c }
    ensures let_go { (lists : Lists) (p : Pricing) (numbering : Numbering) (world new : World)
        (steps : List LifeStep) → IsNewWorld p numbering world →
        Live lists p numbering world steps new → LetNone steps → (d : ℕ) → new.let_go d ≡ 0 }
{
    // The calls tell facts: what runs of a system are, and that to let a child go is two calls of it.
    expiring_is_two_calls();
    systems_run_the_market();
}

/// A law: settled lives are current. A world is settled, by the values of the processes that run and by what was handed out alone,
/// if each parent holds the newest bid of its child and the newest number under which it let it go, each node took the newest
/// price that was handed to it, a parent's newest price was handed to each child that it counts, and nobody has anything to
/// send; whatever was cut off or lost before. Then each member that counts holds the price of the newest clearing, over all
/// newest bids, and the control of one that had one life was told the power. The newest messages alone tell so: it is enough that
/// the newest bid of each child is held by its parent's process, and named in the parent's newest Resume, and that each device
/// took the price of the newest clearing. If all below a relay take what they were told
/// so, they take together what the relay announced. The setpoints of a device that had one life have rising indices.
pub fn settled_lives_are_current()
    ensures current { (lists : Lists) (p : Pricing) (numbering : Numbering) (start : System)
        (world new : World) (steps : List LifeStep) → IsTreeMarket lists p numbering →
        IsStarted lists p start → IsNewWorld p numbering world →
        Live lists p numbering world steps new →
        IsSettledWorld lists numbering new → IsCurrentWorld lists p numbering steps new }
    ensures taken { (lists : Lists) (p : Pricing) (numbering : Numbering) (start : System)
        (world new : World) (steps : List LifeStep) → IsTreeMarket lists p numbering →
        IsStarted lists p start → IsNewWorld p numbering world →
        Live lists p numbering world steps new →
        IsTakenWorld lists numbering new → IsCurrentWorld lists p numbering steps new }
    ensures flows { (lists : Lists) (p : Pricing) (numbering : Numbering) (world : World) →
        IsTreeMarket lists p numbering →
        FlowsIn lists p (numbers_counted lists numbering world.seen)
        (TakeWhatWasTold lists p (numbers_counted lists numbering world.seen) world.seen) }
    ensures rising { (lists : Lists) (p : Pricing) (numbering : Numbering) (start : System)
        (world new : World) (steps : List LifeStep) (d : ℕ) → IsTreeMarket lists p numbering →
        IsStarted lists p start → IsNewWorld p numbering world →
        Live lists p numbering world steps new →
        IsLeaf lists d → BeginsOnce d steps →
        AllPairs (λ (a b : Setpoint). a.index < b.index) (new.seen.setpoints d) }
{
    // The calls tell facts: what holds of runs of a system, and that to let a child go is two calls of it.
    expiring_is_two_calls();
    systems_run_the_market();
    systems_send_frames();
    systems_do_not_go_back();
    settled_systems_are_current();
}

/// A law: there are settled lives. In worked ones a clearing's price is never handed out, and a relay's process is killed between
/// its Resume and its bid; its next one has the record again, the root clears again, and all is taken.
pub fn small_lives_settle()
    ensures { LivesSettle }
{}

/// A law: for any lives there are lists. Over a market whose lists say nothing of what its devices do, let each control offer,
/// leave and let go as it likes, in any order and over any restarts: there are lists with the same tree, and a market over them
/// with the same steps and limits, of which these are lives. So what the laws over lives ask of the lists can be met always.
pub fn lists_are_there()
    ensures { (tree : Lists) (p : Pricing) (numbering : Numbering) → IsTreeMarket tree p numbering →
        ((x : ℕ) (cut : Cut) (l : Limits) → p.limits x cut ≡ Some l → AreLimits l) →
        (world new : World) (steps : List LifeStep) → IsNewWorld p numbering world →
        LiveFree tree p numbering world steps new → HasLists tree p numbering world steps new }
{}

/// A law: a frame that is carried unchanged is the message that was sent. If the bytes of a bid or a price that was sent come to
/// its receiver, the frame that they begin with is that message and no other, so the receiver may read it. So it is of an Old.
pub fn frames_are_carried()
    ensures relay_bids { (lists : Lists) (p : Pricing) (numbering : Numbering) (sys : System)
        (x : ℕ) → IsNode lists x → (bid : BidMessage) → BidWasSent p sys x bid → (c : ℕ) →
        parent lists x ≡ c → LimitsPassBy p c x → (own : RelaySetup) (place : RelayPlace)
        (frame : RelayFrame) (more behind : List ℕ) →
        IsRelayFormed place frame →
        IsRelayFormed place (RelayFrame.Child (bid_frame (numbering.place x + 1) bid)) →
        relay_frame_bytes frame ++ more ≡ up_bytes (numbering.place x + 1) bid ++ behind →
        RelayMayRead lists p numbering own sys c frame × (more ≡ behind) }
    ensures relay_limits { (lists : Lists) (p : Pricing) (numbering : Numbering) (sys : System)
        (x : ℕ) → IsNode lists x → (bid : BidMessage) → BidWasSent p sys x bid → (c : ℕ) →
        parent lists x ≡ c → bid.gone ≡ true → (limits : Limits) →
        GivesLimits p c x bid.number limits → (own : RelaySetup) →
        own.terms.giver ≡ Some (numbering.place x + 1) → (place : RelayPlace)
        (frame : RelayFrame) (more behind : List ℕ) → IsRelayFormed place frame →
        IsRelayFormed place (limits_frame bid limits) → relay_frame_bytes frame ++ more
        ≡ relay_frame_bytes (limits_frame bid limits) ++ behind →
        RelayMayRead lists p numbering own sys c frame × (more ≡ behind) }
    ensures root_bids { (lists : Lists) (p : Pricing) (numbering : Numbering) (sys : System)
        (x : ℕ) → IsNode lists x → (bid : BidMessage) → BidWasSent p sys x bid →
        parent lists x ≡ 0 → (stage : Stage) (frame : RootFrame) (more behind : List ℕ) →
        IsRootFormed stage frame →
        IsRootFormed stage (RootFrame.Market (bid_frame (numbering.place x + 1) bid)) →
        root_frame_bytes frame ++ more ≡ up_bytes (numbering.place x + 1) bid ++ behind →
        RootMayRead lists p numbering sys frame × (more ≡ behind) }
    ensures relay_prices { (lists : Lists) (p : Pricing) (numbering : Numbering) (sys : System)
        (x : ℕ) (price : PriceMessage) → PriceWasSent sys x price → (own : RelaySetup)
        (place : RelayPlace) (frame : RelayFrame) (more behind : List ℕ) →
        IsRelayFormed place frame → IsRelayFormed place
        (RelayFrame.Parent (price_frame own.basis (numbering.place x + 1) price)) →
        relay_frame_bytes frame ++ more
        ≡ down_frame_bytes own.basis (numbering.place x) price ++ behind →
        RelayMayRead lists p numbering own sys x frame × (more ≡ behind) }
    ensures device_prices { (lists : Lists) (p : Pricing) (numbering : Numbering) (sys : System)
        (x : ℕ) (price : PriceMessage) → PriceWasSent sys x price → (basis : BasisValue)
        (place : NodePlace) (frame : DeviceFrame) (more behind : List ℕ) →
        IsDeviceFormed place frame → IsDeviceFormed place
        (DeviceFrame.Parent (price_frame basis (numbering.place x + 1) price)) →
        device_frame_bytes frame ++ more
        ≡ down_frame_bytes basis (numbering.place x) price ++ behind →
        DeviceMayRead lists p basis sys x frame × (more ≡ behind) }
    ensures device_olds { (child kept : ℕ) (place : NodePlace) (frame : DeviceFrame)
        (more behind : List ℕ) → IsDeviceFormed place frame →
        IsDeviceFormed place (DeviceFrame.Parent (ParentFrame.Old child kept)) →
        device_frame_bytes frame ++ more ≡ answer_bytes (Reply.Old child kept) ++ behind →
        (frame ≡ DeviceFrame.Parent (ParentFrame.Old child kept)) × (more ≡ behind) }
{}

/// A law: a service that was given Hello, and then a Resume with what is stored, is a node that comes back with what is stored; so
/// it is where nothing is stored and it was given Hello alone. A relay then learns the limits that it was given last, as the frame
/// with them would make it; a device writes its newest bid.
pub fn lives_begin()
    ensures relay { (old : RelayServiceValue) (basis : Basis) (after : RelayServiceValue)
        (stored : StoredRelay) (reply : List ℕ) → old.relay ≡ None →
        RelayIsGiven old basis after stored reply → RelayIsBack old basis after stored reply }
    ensures root { (basis : Basis) (after : Option OpenRoot) (stored : StoredRoot) →
        RootIsGiven basis after stored → RootIsBack basis after stored }
    ensures device { (p : Pricing) (old mid after : DeviceServiceValue) (basis : Basis)
        (stored : StoredAgent) (reply more : List ℕ) → old.device ≡ None →
        IsNewestAccepted stored.number stored.newest →
        AnswersDevice old (DeviceFrame.Hello basis) mid reply →
        AnswersDevice mid (DeviceFrame.Resume stored) after more →
        DeviceIsBack p old.child basis after stored reply more }
{}

/// A law: a worked life. A device offers, and its process is killed between the Resume and the bid; the next process begins with
/// that Resume and sends the bid.
pub fn a_cut_life_goes_on()
    ensures { (lists : Lists) (p : Pricing) (numbering : Numbering) (basis : BasisValue)
        (terms : ℕ → RelayTerms) (root : RootValue) (relays : ℕ → RelayValue) (demand : List ℤ) →
        ((c : ℕ) (l : Limits) → p.limits c no_changes ≡ Some l → (terms c).limits ≡ l) →
        IsLeaf lists 1 → IsGivenOffer lists p 1 2 demand →
        LifeGoesOn lists p numbering (new_world numbering basis terms root relays) demand }
{}

/// A law: a stream that is cut at any byte is some first frames, whole, and nothing else or a part of the next one.
pub fn streams_are_cut_anywhere()
    ensures relay { (basis : BasisValue) (child : ℕ) (outs : List (Output StoredRelay)) (m : ℕ) →
        IsCutStream relay_resume_bytes basis child outs m }
    ensures root { (basis : BasisValue) (outs : List (Output StoredRoot)) (m : ℕ) →
        IsCutStream root_resume_bytes basis 0 outs m }
    ensures device { (basis : BasisValue) (child : ℕ) (outs : List (Output StoredAgent)) (m : ℕ) →
        IsCutStream agent_resume_bytes basis child outs m }
{}
