//! Writes what a relay writes of itself: what it keeps over a restart, its newest bid, and the prices for its children.

ghost use Rattle.std.specs.Prelude.{◌≡◌, ◌+◌, ◌≤◌, ◌<◌, ◌++◌, ◌∷◌, [], if◌then◌else◌, vec_len, vec_capacity};
ghost use Rattle.pm_base.specs.Limits.{most_steps};
ghost use Rattle.pm_services.specs.Limits.{own_bid_limit, prices_limit};
ghost use Rattle.pm_frames.specs.Stored.{relay_resume_bytes, relay_resume_size};
ghost use Rattle.pm_wire.specs.Memory.{frame_limit};
ghost use Rattle.pm_wire.specs.Frames.{frame_bytes};
ghost use Rattle.pm_wire.specs.declared.frame.Frame.{Frame};
ghost use Rattle.pm_concentrator.specs.Concentrators.{own_demand};
ghost use Rattle.pm_relay.specs.Relays.{HasRecord, newest_bid_number};
ghost use Rattle.pm_frames.specs.Answers.{out_of_limits_bytes};
ghost use Rattle.pm_services.specs.RelayWrites.{stored_relay, relay_bytes, bid_outs, down_outs, has_step_within};
ghost use Rattle.pm_services.specs.Outputs.{Output};

use crate::setup::RelaySetup;
use pm_frames::{write_bid, write_out_of_limits, write_prices, write_relay_resume};
use pm_relay::Relay;
use pm_session::PriceUpdate;

/// Appends what the relay keeps over a restart.
pub(crate) fn write_resume(relay: &Relay, own: &RelaySetup, out: &mut Vec<u8>)
    requires room { vec_len out.old + relay_resume_size ≤ vec_capacity out.old }
    ensures written { out.new.items ≡ out.old.items
        ++ relay_resume_bytes (stored_relay own.now relay.now) }
    ensures size { vec_len out.new ≡ vec_len out.old + relay_resume_size }
    ensures capacity { vec_capacity out.old ≤ vec_capacity out.new }
{
    write_relay_resume(&relay.resume(), &own.terms, &own.basis, out);
}

/// Appends the bid of this number, in which the relay is this child of its parent.
fn write_plain_bid(relay: &Relay, own: &RelaySetup, out: &mut Vec<u8>)
    requires steps { relay.now.gathered.cache.steps ≤ most_steps }
    requires room { vec_len out.old + frame_limit ≤ vec_capacity out.old }
    ensures written { out.new.items ≡ out.old.items ++ frame_bytes (Frame.Bid own.now.child
        (newest_bid_number relay.now) (own_demand relay.now.gathered)) }
    ensures few { vec_len out.new ≤ vec_len out.old + frame_limit }
    ensures capacity { vec_capacity out.old ≤ vec_capacity out.new }
{
    write_bid(own.child, relay.last(), relay.demand(), out);
}

/// Appends that the bid of this number is out of its limits, unless it is within them.
fn write_warning(within: bool, number: u32, out: &mut Vec<u8>)
    requires room { vec_len out.old + 5 ≤ vec_capacity out.old }
    ensures written { out.new.items ≡ out.old.items
        ++ (if within then [] else out_of_limits_bytes number) }
    ensures few { vec_len out.new ≤ vec_len out.old + 5 }
    ensures capacity { vec_capacity out.old ≤ vec_capacity out.new }
{
    if !within {
        write_out_of_limits(number, out);
    }
}

/// Whether some step of the sum of what the relay holds is within its limits.
fn keeps_limits(relay: &Relay) -> bool
    ensures { result ≡ has_step_within relay.now }
{
    relay.has_step_within()
}

/// Appends the relay's newest bid, where the relay holds what went into it, under the limits that it was made under; and behind it that
/// the bid is out of the limits, if it is.
pub(crate) fn write_own_bid(relay: &Relay, own: &RelaySetup, out: &mut Vec<u8>)
    requires steps { relay.now.gathered.cache.steps ≤ most_steps }
    requires room { vec_len out.old + own_bid_limit ≤ vec_capacity out.old }
    ensures written { out.new.items ≡ out.old.items
        ++ relay_bytes own.now (bid_outs relay.now) }
    ensures few { vec_len out.new ≤ vec_len out.old + own_bid_limit }
    ensures capacity { vec_capacity out.old ≤ vec_capacity out.new }
{
    write_plain_bid(relay, own, out);
    write_warning(keeps_limits(relay), relay.last(), out);
}

/// Appends the relay's newest bid, and before it what the relay keeps over a restart.
pub(crate) fn write_sent(relay: &Relay, own: &RelaySetup, out: &mut Vec<u8>)
    requires steps { relay.now.gathered.cache.steps ≤ most_steps }
    requires room { vec_len out.old + (relay_resume_size + own_bid_limit) ≤ vec_capacity out.old }
    ensures written { out.new.items ≡ out.old.items
        ++ relay_bytes own.now (Output.Keeps (stored_relay own.now relay.now)
        ∷ bid_outs relay.now) }
    ensures few { vec_len out.new ≤ vec_len out.old + (relay_resume_size + own_bid_limit) }
    ensures capacity { vec_capacity out.old ≤ vec_capacity out.new }
{
    write_resume(relay, own, out);
    write_own_bid(relay, own, out);
}

/// Appends the price for each child that was not gone in the record of the number that the price names.
pub(crate) fn write_down(relay: &Relay, own: &RelaySetup, price: PriceUpdate, out: &mut Vec<u8>)
    requires record { HasRecord relay.now price.number }
    requires step { price.step < relay.now.gathered.cache.steps }
    requires steps { relay.now.gathered.cache.steps ≤ most_steps }
    requires room { vec_len out.old + prices_limit ≤ vec_capacity out.old }
    ensures written { out.new.items ≡ out.old.items
        ++ relay_bytes own.now (down_outs relay.now price) }
    ensures few { vec_len out.new ≤ vec_len out.old + prices_limit }
    ensures capacity { vec_capacity out.old ≤ vec_capacity out.new }
{
    write_prices(&relay.prices(price), &own.basis, out);
}
