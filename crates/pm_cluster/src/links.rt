//! The links of a cluster, in rows: a row has the links of one node to its children.

ghost use Rattle.std.specs.Prelude.{◌≡◌, ◌<◌, length, None, MatchOption, Some};
ghost use Rattle.std.specs.Option.{option_copied};
ghost use Rattle.pm_base.specs.Rows.{rows_of};
ghost use Rattle.pm_session.specs.Links.{demand_offered, bid_offered, BidOffered, BidTaken, NothingWaited, PriceTaken};
ghost use Rattle.pm_stands.specs.Core.{link_at};
ghost use Rattle.pm_stands.specs.Rows.{OneLink};
ghost use Rattle.pm_cluster.specs.Parts.{HasLinkAt};

use pm_bid::{ArrayBid, BidHead};
use pm_session::{Link, PriceUpdate};

/// Offers a bid on the link of a child; None is a bid that is gone.
pub(crate) fn offer_bid(
    links: &mut Vec<Vec<Link>>,
    parent: usize,
    place: usize,
    number: u32,
    demand: Option<&ArrayBid>,
)
    requires link { HasLinkAt links.old.items parent place }
    requires number { (link_at (rows_of links.old.items) parent place).up.offered < number }
    requires steps { let old = link_at (rows_of links.old.items) parent place in
        length (demand_offered old.steps (option_copied demand)) ≡ old.steps }
    ensures one { OneLink (rows_of links.old.items) (rows_of links.new.items) parent place }
    ensures offered { let old = link_at (rows_of links.old.items) parent place in
        BidOffered old (link_at (rows_of links.new.items) parent place)
        (bid_offered old.steps number (option_copied demand.entry)) }
{
    let row = &mut links[parent];
    let up = &mut row[place];
    let _ = up.offer_bid(number, demand);
}

/// Offers a bid on the link of a child, in exchange for another one of as many steps.
pub(crate) fn exchange_bid(
    links: &mut Vec<Vec<Link>>,
    parent: usize,
    place: usize,
    number: u32,
    demand: &mut ArrayBid,
)
    requires link { HasLinkAt links.old.items parent place }
    requires number { (link_at (rows_of links.old.items) parent place).up.offered < number }
    requires steps { length demand.old ≡ (link_at (rows_of links.old.items) parent place).steps }
    ensures one { OneLink (rows_of links.old.items) (rows_of links.new.items) parent place }
    ensures offered { let old = link_at (rows_of links.old.items) parent place in
        BidOffered old (link_at (rows_of links.new.items) parent place)
        (bid_offered old.steps number (Some demand.old)) }
    ensures same_length { length demand.new ≡ length demand.old }
{
    let row = &mut links[parent];
    let up = &mut row[place];
    up.exchange_bid(number, demand);
}

/// Takes the bid that waits on the link of a child, if one does.
pub(crate) fn take_bid(
    links: &mut Vec<Vec<Link>>,
    parent: usize,
    place: usize,
    into: &mut ArrayBid,
) -> Option<BidHead>
    requires link { HasLinkAt links.old.items parent place }
    requires steps { length into.old ≡ (link_at (rows_of links.old.items) parent place).steps }
    ensures one { OneLink (rows_of links.old.items) (rows_of links.new.items) parent place }
    ensures taken { let old = link_at (rows_of links.old.items) parent place in
        let new = link_at (rows_of links.new.items) parent place in
        MatchOption result (NothingWaited old.up old new × (into.new ≡ into.old)) (λ head.
        BidTaken old new (record { number = head.number; gone = head.gone; demand = into.new })) }
    ensures same_length { length into.new ≡ length into.old }
    ensures none { result ≡ None → rows_of links.new.items ≡ rows_of links.old.items }
{
    let row = &mut links[parent];
    let up = &mut row[place];
    up.take_bid(into)
}

/// Takes the price that waits on the link of a node, if one does.
pub(crate) fn take_price(
    links: &mut Vec<Vec<Link>>,
    parent: usize,
    place: usize,
) -> Option<PriceUpdate>
    requires link { HasLinkAt links.old.items parent place }
    ensures one { OneLink (rows_of links.old.items) (rows_of links.new.items) parent place }
    ensures taken { let old = link_at (rows_of links.old.items) parent place in
        let new = link_at (rows_of links.new.items) parent place in
        MatchOption result (NothingWaited old.down old new) (λ price. PriceTaken old new price) }
    ensures none { result ≡ None → rows_of links.new.items ≡ rows_of links.old.items }
{
    let row = &mut links[parent];
    let down = &mut row[place];
    down.take_price()
}
