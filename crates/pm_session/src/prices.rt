//! The prices of one clearing on their way from a node to its children.

ghost use Rattle.std.specs.Prelude.{◌≡◌, ◌<◌, length};
ghost use Rattle.pm_session.specs.Prices.{PricesOffered, IsNewIndex, price_to};

use crate::link::Link;
use crate::price::PriceUpdate;
use pm_bid::BidHead;

/// The prices of one clearing for the children of a node. Each child whose head is not gone has
/// one: the step, the number of its head, and the index.
#[derive(Clone, Copy)]
pub struct Prices<'a> {
    /// The heads of the children, by their places.
    pub heads: &'a [BidHead],
    /// The step of the market basis, which names the price.
    pub step: u32,
    /// The index of the clearing, from 1.
    pub index: u32,
}

impl Prices<'_> {
    /// How many children the node has.
    pub fn children(&self) -> usize
        ensures children { result ≡ length self.now.heads.now }
    {
        self.heads.len()
    }

    /// The price for a child, which is one of the children. None comes exactly if its head is
    /// gone.
    pub fn for_child(&self, child: usize) -> Option<PriceUpdate>
        requires child { child < length self.now.heads.now }
        ensures price { result ≡ price_to self.now.heads.now self.now.step self.now.index child }
    {
        let head = self.heads[child];
        if head.gone {
            return None;
        }
        Some(PriceUpdate {
            step: self.step,
            number: head.number,
            index: self.index,
        })
    }

    /// Offers each price to its child. The links are in the order of the children, and the index is
    /// above all that were offered on them.
    pub fn offer(&self, downs: &mut [Link])
        requires same_length { length downs.old ≡ length self.now.heads.now }
        requires index { IsNewIndex self.now.index downs.old }
        ensures prices { PricesOffered self.now.heads.now self.now.step self.now.index downs.old
            downs.new }
    {
        for child in 0..downs.len() {
            if let Some(price) = self.for_child(child) {
                let down = &mut downs[child];
                let _ = down.offer_price(price);
            }
        }
    }
}
