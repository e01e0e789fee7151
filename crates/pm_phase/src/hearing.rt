//! What a node takes from its ends of the links, and holds, passes on or learns at once.

ghost use Rattle.std.specs.Prelude.{◌≡◌};
ghost use Rattle.pm_phase.specs.Ends.{IsUpOf, IsDownOf};
ghost use Rattle.pm_phase.specs.KeepingParents.{ChildMovesOn};
ghost use Rattle.pm_phase.specs.TellingParents.{KeepsEntries};
ghost use Rattle.pm_phase.specs.Hearing.{HearsPrice, HearsPriceToPass, HearsBid};

use crate::device::DevicePart;
use crate::ends::{DownEnd, UpEnd, take_bid_from_child, take_price_from_parent};
use crate::parent::ParentPart;
use pm_cells::FreeLink;
use pm_plan::Plan;

/// A device takes a price from its parent, and holds it; whether one came.
pub(crate) fn hear_price(
    links: &[FreeLink],
    plan: &Plan,
    up: &mut UpEnd,
    device: &mut DevicePart,
) -> bool
    requires { IsUpOf links.now up.old }
    ensures link { IsUpOf links.now up.new }
    ensures place { up.new.at ≡ up.old.at }
    ensures heard { HearsPrice plan.now up.old.end up.new.end device.old device.new result }
{
    match take_price_from_parent(links, up) {
        Some(price) => {
            device.take_price(plan, price);
            true
        }
        None => false,
    }
}

/// A concentrator takes a price from its parent, which it is to pass on; whether one came.
pub(crate) fn hear_price_to_pass(
    links: &[FreeLink],
    plan: &Plan,
    up: &mut UpEnd,
    parent: &mut ParentPart,
) -> bool
    requires { IsUpOf links.now up.old }
    ensures link { IsUpOf links.now up.new }
    ensures place { up.new.at ≡ up.old.at }
    ensures heard { HearsPriceToPass plan.now up.old.end up.new.end parent.old parent.new result }
{
    match take_price_from_parent(links, up) {
        Some(price) => {
            parent.take_price(plan, price);
            true
        }
        None => false,
    }
}

/// A node with children takes a bid from the child in a place, and learns it; whether one came.
pub(crate) fn hear_bid(
    links: &[FreeLink],
    place: usize,
    down: &mut DownEnd,
    parent: &mut ParentPart,
) -> bool
    requires { IsDownOf links.now down.old }
    ensures link { IsDownOf links.now down.new }
    ensures place { down.new.at ≡ down.old.at }
    ensures heard { HearsBid place down.old.end down.new.end parent.old parent.new result }
    ensures entries { KeepsEntries place down.old.end down.new.end parent.old parent.new }
    ensures moves { ChildMovesOn place down.old down.new parent.old parent.new }
{
    match take_bid_from_child(links, down) {
        Some(bid) => {
            parent.learn(place, bid);
            true
        }
        None => false,
    }
}
