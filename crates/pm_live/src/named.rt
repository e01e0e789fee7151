//! Reads which node the arguments of the command line name.

ghost use Rattle.std.specs.Prelude.{◌≡◌, ◌≢◌, ◌∷◌, [], ℤ, ℕ, map, string_bytes, decimal, IfSome, IfNone};
ghost use Rattle.std.specs.Fmt.{signed_decimal};
ghost use Rattle.pm_base.specs.Limits.{IsWithin};
ghost use Rattle.pm_base.specs.declared.limits.Limits.{Limits};
ghost use Rattle.pm_relay.specs.Relays.{AreRelayLimits};
ghost use Rattle.pm_live.specs.LiveNodes.{IsChild, IsNamed};

use pm_base::{DEMAND_LIMIT, Limits, MOST_NODES};
use pm_envelope::number_up_to;
use pm_frames::RelayTerms;

/// A node of a market across machines.
#[derive(Clone, Copy, Debug, PartialEq, Eq)]
pub enum LiveNode {
    /// A concentrator: its own number at its parent, its limits on the power that it announces, in watts, and the place among its
    /// children in which it is given others, if it is.
    Relay { child: u16, terms: RelayTerms },
    /// The root of the tree.
    Auctioneer,
    /// The agent of a device: its own number at its parent.
    Device { child: u16 },
}

/// The node that the arguments name, if they name one: `relay CHILD FLOOR CEILING`, the same with GIVER behind it, `auctioneer` or
/// `device CHILD`. CHILD and GIVER are in 1..=256, FLOOR in -1000000000..=0 and CEILING in 0..=1000000000, all as Rust writes them.
pub fn named_node(arguments: &[String]) -> Option<LiveNode>
    ensures named { IfSome result (λ node. IsNamed (map string_bytes arguments.now) node) }
    ensures none { IfNone result
        ((node : LiveNode) → ¬ IsNamed (map string_bytes arguments.now) node) }
{
    match arguments {
        [word] => named_auctioneer(word.as_str()),
        [word, child] => named_device(word.as_str(), child.as_str()),
        [word, child, floor, ceiling] => named_relay(
            word.as_str(),
            child.as_str(),
            floor.as_str(),
            ceiling.as_str(),
        ),
        [word, child, floor, ceiling, giver] => named_given_relay(
            word.as_str(),
            child.as_str(),
            floor.as_str(),
            ceiling.as_str(),
            giver.as_str(),
        ),
        _ => None,
    }
}

/// The auctioneer, if the word names it.
fn named_auctioneer(word: &str) -> Option<LiveNode>
    ensures named { IfSome result (λ node. IsNamed (word.now ∷ []) node) }
    ensures none { IfNone result ((node : LiveNode) → ¬ IsNamed (word.now ∷ []) node) }
{
    if word != "auctioneer" {
        return None;
    }
    Some(LiveNode::Auctioneer)
}

/// The device that two arguments name.
fn named_device(word: &str, child: &str) -> Option<LiveNode>
    ensures named { IfSome result (λ node. IsNamed (word.now ∷ child.now ∷ []) node) }
    ensures none { IfNone result ((node : LiveNode) → ¬ IsNamed (word.now ∷ child.now ∷ []) node) }
{
    if word != "device" {
        return None;
    }
    let child = child_of(child.as_bytes())?;
    Some(LiveNode::Device { child })
}

/// The relay with fixed limits that four arguments name.
fn named_relay(word: &str, child: &str, floor: &str, ceiling: &str) -> Option<LiveNode>
    ensures named { IfSome result (λ node.
        IsNamed (word.now ∷ child.now ∷ floor.now ∷ ceiling.now ∷ []) node) }
    ensures none { IfNone result ((node : LiveNode) →
        ¬ IsNamed (word.now ∷ child.now ∷ floor.now ∷ ceiling.now ∷ []) node) }
{
    if word != "relay" {
        return None;
    }
    let child = child_of(child.as_bytes())?;
    let limits = named_limits(floor.as_bytes(), ceiling.as_bytes())?;
    let terms = RelayTerms {
        limits,
        giver: None,
    };
    Some(LiveNode::Relay { child, terms })
}

/// The relay whose limits may change that five arguments name.
fn named_given_relay(
    word: &str,
    child: &str,
    floor: &str,
    ceiling: &str,
    giver: &str,
) -> Option<LiveNode>
    ensures named { IfSome result (λ node.
        IsNamed (word.now ∷ child.now ∷ floor.now ∷ ceiling.now ∷ giver.now ∷ []) node) }
    ensures none { IfNone result ((node : LiveNode) →
        ¬ IsNamed (word.now ∷ child.now ∷ floor.now ∷ ceiling.now ∷ giver.now ∷ []) node) }
{
    if word != "relay" {
        return None;
    }
    let child = child_of(child.as_bytes())?;
    let limits = named_limits(floor.as_bytes(), ceiling.as_bytes())?;
    let giver = child_of(giver.as_bytes())?;
    let terms = RelayTerms {
        limits,
        giver: Some(giver),
    };
    Some(LiveNode::Relay { child, terms })
}

/// The limits that a relay may have, of which two texts write the floor and the ceiling.
fn named_limits(floor: &[u8], ceiling: &[u8]) -> Option<Limits>
    ensures limits { IfSome result AreRelayLimits }
    ensures floor { IfSome result (λ limits. floor.now ≡ signed_decimal limits.floor) }
    ensures ceiling { IfSome result (λ limits. ceiling.now ≡ signed_decimal limits.ceiling) }
    ensures none { IfNone result ((limits : Limits) → AreRelayLimits limits →
        floor.now ≡ signed_decimal limits.floor → ceiling.now ≢ signed_decimal limits.ceiling) }
{
    let floor = signed_up_to(DEMAND_LIMIT as u32, floor)?;
    let ceiling = signed_up_to(DEMAND_LIMIT as u32, ceiling)?;
    if floor > 0 || ceiling < 0 {
        return None;
    }
    Some(Limits { floor, ceiling })
}

/// The child from 1 to 256 that a text writes.
fn child_of(text: &[u8]) -> Option<u16>
    ensures child { IfSome result IsChild }
    ensures text { IfSome result (λ child. text.now ≡ decimal child) }
    ensures none { IfNone result ((child : ℕ) → IsChild child → text.now ≢ decimal child) }
{
    let child = number_up_to(MOST_NODES as u32, text)?;
    if child == 0 {
        return None;
    }
    Some(child as u16)
}

/// The number from `-most` to `most` that a text writes as Rust does.
fn signed_up_to(most: u32, text: &[u8]) -> Option<i64>
    ensures within { IfSome result (λ number. IsWithin most number) }
    ensures text { IfSome result (λ number. text.now ≡ signed_decimal number) }
    ensures none { IfNone result ((number : ℤ) → IsWithin most number →
        text.now ≢ signed_decimal number) }
{
    if text.is_empty() || text[0] != b'-' {
        let number = number_up_to(most, text)?;
        return Some(i64::from(number));
    }
    let number = number_up_to(most, &text[1..])?;
    if number == 0 {
        return None;
    }
    Some(-i64::from(number))
}
