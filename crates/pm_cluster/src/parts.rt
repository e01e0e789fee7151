//! The moves of concentrators and of the auctioneer on the lists that a cluster keeps.

ghost use Rattle.std.specs.Prelude.{◌≡◌, ◌<◌, length, MatchOption, false};
ghost use Rattle.pm_base.specs.Rows.{rows_of};
ghost use Rattle.pm_cache.specs.Learning.{bid_demand};
ghost use Rattle.pm_concentrator.specs.Concentrators.{Published};
ghost use Rattle.pm_auctioneer.specs.Auctions.{ClearedAt};
ghost use Rattle.pm_stands.specs.Core.{row_at, link_at, gathered_at, cache_in};
ghost use Rattle.pm_stands.specs.Rows.{EntryLearnt, CannotPublish};
ghost use Rattle.pm_stands.specs.Made.{PassedOn};
ghost use Rattle.pm_stands.specs.Needs.{MayLearn, MayPass};
ghost use Rattle.pm_cluster.specs.Parts.{HasConcentrator, HasParent, HasLinkAt, FitsLink, FitsRow};
ghost use Rattle.pm_cluster.specs.Parts.{OnlyPublished, OnlyPassed, OnlyCleared};

use pm_auctioneer::{Auctioneer, Cleared};
use pm_bid::{ArrayBid, BidHead};
use pm_concentrator::Concentrator;
use pm_session::{Link, PriceUpdate};

/// The parent learns a newer bid of the child in a place, in exchange for another demand of as many steps.
pub(crate) fn learn(
    auctioneer: &mut Auctioneer,
    concentrators: &mut Vec<Option<Concentrator>>,
    parent: usize,
    place: usize,
    head: BidHead,
    demand: &mut ArrayBid,
)
    requires parent { HasParent concentrators.old.items parent }
    requires may { MayLearn (cache_in auctioneer.old concentrators.old.items parent) place
        head.number (bid_demand head.gone demand.old) }
    ensures learnt { EntryLearnt auctioneer.old auctioneer.new concentrators.old.items
        concentrators.new.items parent place head.number (bid_demand head.gone demand.old) }
    ensures same_length { length demand.new ≡ length demand.old }
{
    if parent == 0 {
        let _ = auctioneer.exchange_bid(place, head, demand);
        return;
    }
    match &mut concentrators[parent] {
        None => unreachable!(),
        Some(concentrator) => {
            let _ = concentrator.exchange_bid(place, head, demand);
        }
    }
}

/// A concentrator publishes on its link to its parent, if it has something to publish and room for it.
pub(crate) fn publish(
    concentrators: &mut Vec<Option<Concentrator>>,
    links: &mut Vec<Vec<Link>>,
    node: usize,
    parent: usize,
    place: usize,
) -> Option<u32>
    requires concentrator { HasConcentrator concentrators.old.items node }
    requires link { HasLinkAt links.old.items parent place }
    requires fits { FitsLink (gathered_at concentrators.old.items node)
        (link_at (rows_of links.old.items) parent place) }
    ensures published { let old = gathered_at concentrators.old.items node in
        let up = link_at (rows_of links.old.items) parent place in
        MatchOption result (CannotPublish old) (λ number.
        Published old (gathered_at concentrators.new.items node)
        up (link_at (rows_of links.new.items) parent place) number) }
    ensures only { OnlyPublished concentrators.old.items concentrators.new.items
        (rows_of links.old.items) (rows_of links.new.items) node parent place result }
{
    let row = &mut links[parent];
    let up = &mut row[place];
    match &mut concentrators[node] {
        None => unreachable!(),
        Some(concentrator) => match concentrator.publish(up) {
            Ok(number) => Some(number),
            Err(_) => None,
        },
    }
}

/// A concentrator passes a price on to its children.
pub(crate) fn pass(
    concentrators: &mut Vec<Option<Concentrator>>,
    links: &mut Vec<Vec<Link>>,
    node: usize,
    price: PriceUpdate,
)
    requires concentrator { HasConcentrator concentrators.old.items node }
    requires row { node < length links.old.items }
    requires may { MayPass (gathered_at concentrators.old.items node)
        (row_at (rows_of links.old.items) node) price }
    ensures passed { PassedOn (gathered_at concentrators.old.items node)
        (gathered_at concentrators.new.items node)
        (row_at (rows_of links.old.items) node) (row_at (rows_of links.new.items) node) price }
    ensures only { OnlyPassed concentrators.old.items concentrators.new.items
        (rows_of links.old.items) (rows_of links.new.items) node }
{
    let row = &mut links[node];
    match &mut concentrators[node] {
        None => unreachable!(),
        Some(concentrator) => {
            let _ = concentrator.pass(price, row);
        }
    }
}

/// The auctioneer clears, if it learnt something since its last clearing.
pub(crate) fn clear(auctioneer: &mut Auctioneer, links: &mut Vec<Vec<Link>>) -> Option<Cleared>
    requires row { 0 < length links.old.items }
    requires fits { FitsRow auctioneer.old (row_at (rows_of links.old.items) 0) }
    ensures cleared { MatchOption result (auctioneer.old.changed ≡ false)
        (λ cleared. ClearedAt auctioneer.old auctioneer.new
        (row_at (rows_of links.old.items) 0) (row_at (rows_of links.new.items) 0) cleared.index
        cleared.step) }
    ensures only { OnlyCleared auctioneer.old auctioneer.new
        (rows_of links.old.items) (rows_of links.new.items) result }
{
    let row = &mut links[0];
    match auctioneer.clear(row) {
        Ok(cleared) => Some(cleared),
        Err(_) => None,
    }
}
