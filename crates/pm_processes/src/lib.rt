//! Processes of the nodes of a market, by the bytes that they take and write.
//!
//! What `live` reads and writes, at each moment, is a process of a relay, an auctioneer or a device. Such a process is a life of
//! its node, frame by frame (`processes_are_lives`). A market whose carriers keep their promises keeps the law, whatever processes
//! are ended at any byte and whatever is lost, repeated or reordered (`histories_keep_the_law`).
//!
//! The definitions stand in `specs/`: `Processes` (a process by its bytes), `RelayProcess`, `RootProcess` and `DeviceProcess` (the
//! same frame by frame), `Bounded` (what bounds do to the Bids that are read), `HandedOn` (frames that are handed on unchanged, by
//! their bytes), `History` (processes of all nodes, and what the carriers promise), `Kept` (what holds then), `Said` (what that
//! says of the tree), `Worked` and `WorkedLimits` (worked histories).
#![tactic(auto)]

ghost use Rattle.std.specs.Prelude.{◌≡◌, ◌⊎◌, ℕ, List};
ghost use Rattle.pm_market.specs.Lists.{Lists};
ghost use Rattle.pm_net.specs.Pricing.{Pricing};
ghost use Rattle.pm_net_plan.specs.Places.{Numbering};
ghost use Rattle.pm_frames.specs.declared.terms.RelayTerms.{RelayTerms};
ghost use Rattle.pm_frames.specs.declared.place.Stage.TheVariants.{Start};
ghost use Rattle.pm_frames.specs.RelayFrames.{relay_framing};
ghost use Rattle.pm_frames.specs.RootFrames.{root_framing};
ghost use Rattle.pm_frames.specs.DeviceFrames.{device_framing};
ghost use Rattle.pm_processes.specs.Processes.{IsRelayProcess, IsRootProcess, IsDeviceProcess, relay_start, stream_start, HasNoFrame};
ghost use Rattle.pm_processes.specs.RelayProcess.{RelayProcess, setup_with};
ghost use Rattle.pm_processes.specs.RootProcess.{RootProcess};
ghost use Rattle.pm_processes.specs.DeviceProcess.{DeviceProcess};
ghost use Rattle.pm_processes.specs.Bounded.{AreBounded, AreRootBounded};
ghost use Rattle.pm_services.specs.Bounds.{widest};
ghost use Rattle.pm_processes.specs.History.{Scene, RelayProcessGoesOn, RootProcessGoesOn, DeviceProcessGoesOn, HandlesNothing};
ghost use Rattle.pm_processes.specs.Kept.{HistoriesKeepTheLaw};
ghost use Rattle.pm_processes.specs.Said.{HistoriesSay};
ghost use Rattle.pm_processes.specs.Worked.{small_scene, HistoryGoesOn};
ghost use Rattle.pm_processes.specs.WorkedLimits.{limits_scene, LimitsHistoryKeepsTheLaw};
ghost use Rattle.pm_processes.specs.WorkedAnswers.{FrameRows, RelayRows, RootRows, DeviceRows};
ghost use Rattle.pm_relay.specs.Relays.{RelayValue};
ghost use Rattle.pm_relay.specs.Roots.{RootValue};

use pm_lives::{lists_are_there, lives_keep_the_law, settled_lives_are_current};

/// A law: a process, by the bytes that it took and wrote at any moment, is a life of its node. It took Hello, and what it came back
/// with or nothing; it is the node that comes back with that. Behind it the process took frames, and answered each as that node
/// does. What it wrote is the first bytes of these answers: some whole frames, and a part of the next.
pub fn processes_are_lives()
    ensures relay { (child : ℕ) (terms : RelayTerms) (took wrote : List ℕ) →
        IsRelayProcess child terms took wrote →
        HasNoFrame relay_framing (relay_start child terms) took
        ⊎ RelayProcess child terms took wrote }
    ensures root { (took wrote : List ℕ) → IsRootProcess took wrote →
        HasNoFrame root_framing Start took ⊎ RootProcess took wrote }
    ensures device { (p : Pricing) (child : ℕ) (took wrote : List ℕ) →
        IsDeviceProcess child took wrote →
        HasNoFrame device_framing (stream_start child) took ⊎ DeviceProcess p child took wrote }
{}

/// A law: a market keeps the law whose processes are those of `live`, and whose carriers keep their promises.
pub fn histories_keep_the_law()
    ensures { HistoriesKeepTheLaw }
{
    // The calls tell facts: there are lists of these lives, and what holds of lives.
    lists_are_there();
    lives_keep_the_law();
    settled_lives_are_current();
}

/// A law: what a history that keeps the law says of the tree that was given, whatever lists there are. The setpoints of a device that
/// had one process have rising indices. The limits that are stored of a relay are those that its giver gives, under the number that is
/// stored with them.
pub fn histories_say_so()
    ensures { HistoriesSay }
{}

/// A law: what is handled of a process was written by it. If none is left of the frames that it wrote whole, nothing of it is
/// handed out or stored, however it goes on.
pub fn what_is_handled_was_written()
    ensures relay { (lists : Lists) (p : Pricing) (numbering : Numbering) (old new : Scene)
        (c : ℕ) → old.left c ≡ 0 → RelayProcessGoesOn lists p numbering old c new →
        HandlesNothing old new }
    ensures root { (lists : Lists) (p : Pricing) (numbering : Numbering) (old new : Scene) →
        old.left 0 ≡ 0 → RootProcessGoesOn lists p numbering old new → HandlesNothing old new }
    ensures device { (lists : Lists) (p : Pricing) (numbering : Numbering) (old new : Scene)
        (d : ℕ) → old.left d ≡ 0 → DeviceProcessGoesOn lists p numbering old d new →
        HandlesNothing old new }
{}

/// A law: a Bid counts in a process if it keeps the newest bound that the frames before it gave its child. Of one that breaks that
/// bound this is said, and nothing changes. A child that was given no bound has the widest.
pub fn bids_keep_their_bounds()
    ensures relay { (child : ℕ) (terms : RelayTerms) (took wrote : List ℕ)
        (process : RelayProcess child terms took wrote) →
        AreBounded (setup_with child terms process.basis) (λ place. widest) process.held
        process.exchanges }
    ensures root { (took wrote : List ℕ) (process : RootProcess took wrote) →
        AreRootBounded (λ place. widest) process.root process.exchanges }
{}

/// A law: there are such histories. In a worked one, by its bytes, a device offers, and its process is killed within the bid. The
/// next process begins with the stored Resume and sends the bid.
pub fn a_cut_process_goes_on()
    ensures { (root : RootValue) (relays : ℕ → RelayValue) →
        HistoryGoesOn (small_scene root relays) }
{}

/// A law: there are such histories of a tree with given limits. In a worked one, by the bytes of five processes, a device gives a relay its
/// limits, of -3 to 5 watts. Another asks for 6, -2 and -3 watts. The relay's process is killed within its Bid, and the next one
/// begins with the stored Resume: it has these limits again, hears the device again and so sends the Bid, of -2, -2 and -3
/// watts. The auctioneer clears at step 0. There the device would take 6 watts, so the relay settles for step 1, and the
/// device's Setpoint is of -2 watts. The same follows from what the theorem says of this history, and from nothing else: the power
/// is that of the device's own offer, at the step over all bids that count, and the relay is within the limits.
pub fn a_relay_keeps_the_limits_given()
    ensures { (root : RootValue) (relays : ℕ → RelayValue) →
        LimitsHistoryKeepsTheLaw (limits_scene root relays) }
{
    // The call tells a fact: such histories keep the law.
    histories_keep_the_law();
}

/// A law: worked answers, by their bytes. Of small nodes each row says which bytes any answer to a frame has, and what the node is
/// behind it; and each sort of frame has its row. They are worked by hand from the tables of docs/RELAY.md.
pub fn answers_are_as_worked_out()
    ensures frames { FrameRows }
    ensures relay { RelayRows }
    ensures auctioneer { RootRows }
    ensures device { DeviceRows }
{}
