//! The two ends of a link, each with the numbers of what it put and took.

ghost use Rattle.std.specs.Prelude.{◌≡◌, ◌↔◌, IsTrue, Contains};
ghost use Rattle.pm_cells.specs.Numbers.{newest_number};

use crate::message::Message;
use crate::view::EndView;
use atomic_table::Seat;
use std::marker::Model;

/// The slot and the word of the bids, which go up.
pub(crate) const BIDS: usize = 0;

/// The slot and the word of the prices, which come down.
pub(crate) const PRICES: usize = 1;

/// The end of a link that puts bids and takes prices.
///
/// Contracts see the link that it is of, what it knows of the two cells, and its room.
#[derive(Drop)]
pub struct ChildEnd {
    pub(crate) seat: Seat<Option<Message>, EndView>,
    pub(crate) room: usize,
    pub(crate) puts: Vec<u32>,
    pub(crate) takes: Vec<u32>,
}

impl Model for ChildEnd {
    ghost use Rattle.std.specs.Prelude.{vec_capacity};
    ghost use Rattle.pm_cells.specs.Ends.{LinkEnd, RestsBetweenCalls};
    ghost use Rattle.pm_cells.specs.declared.view.Role.TheVariants.{Child};

    ghost Value = { LinkEnd };

    ghost view = { λ e. record { link = e.seat.table_id; known = e.seat.me.0; room = e.room } };

    ghost invariant = { λ e. RestsBetweenCalls Child e.seat.me e.seat.me.0.up e.seat.me.0.down e.puts.items e.takes.items e.room
        (vec_capacity e.puts) (vec_capacity e.takes) };
}

/// The end of a link that takes bids and puts prices.
///
/// Contracts see the link that it is of, what it knows of the two cells, and its room.
#[derive(Drop)]
pub struct ParentEnd {
    pub(crate) seat: Seat<Option<Message>, EndView>,
    pub(crate) room: usize,
    pub(crate) puts: Vec<u32>,
    pub(crate) takes: Vec<u32>,
}

impl Model for ParentEnd {
    ghost use Rattle.std.specs.Prelude.{vec_capacity};
    ghost use Rattle.pm_cells.specs.Ends.{LinkEnd, RestsBetweenCalls};
    ghost use Rattle.pm_cells.specs.declared.view.Role.TheVariants.{Parent};

    ghost Value = { LinkEnd };

    ghost view = { λ e. record { link = e.seat.table_id; known = e.seat.me.0; room = e.room } };

    ghost invariant = { λ e. RestsBetweenCalls Parent e.seat.me e.seat.me.0.down e.seat.me.0.up e.puts.items e.takes.items e.room
        (vec_capacity e.puts) (vec_capacity e.takes) };
}

impl ChildEnd {
    /// The numbers of the bids that it put, which rise.
    pub fn puts(&self) -> &[u32]
        ensures { result.now ≡ self.now.known.up.puts }
    {
        self.puts.as_slice()
    }

    /// The indices of the prices that it took, which rise.
    pub fn takes(&self) -> &[u32]
        ensures { result.now ≡ self.now.known.down.takes }
    {
        self.takes.as_slice()
    }

    /// The number of the bid that it put last, 0 where it put none.
    pub fn newest_put(&self) -> u32
        ensures { result ≡ newest_number self.now.known.up.puts }
    {
        newest_of(self.puts())
    }

    /// The index of the price that it took last, 0 where it took none.
    pub fn newest_taken(&self) -> u32
        ensures { result ≡ newest_number self.now.known.down.takes }
    {
        newest_of(self.takes())
    }

    /// How many bids it may put, and how many prices it may take.
    pub fn room(&self) -> usize
        ensures { result ≡ self.now.room }
    {
        self.room
    }
}

impl ParentEnd {
    /// The indices of the prices that it put, which rise.
    pub fn puts(&self) -> &[u32]
        ensures { result.now ≡ self.now.known.down.puts }
    {
        self.puts.as_slice()
    }

    /// The numbers of the bids that it took, which rise.
    pub fn takes(&self) -> &[u32]
        ensures { result.now ≡ self.now.known.up.takes }
    {
        self.takes.as_slice()
    }

    /// The index of the price that it put last, 0 where it put none.
    pub fn newest_put(&self) -> u32
        ensures { result ≡ newest_number self.now.known.down.puts }
    {
        newest_of(self.puts())
    }

    /// The number of the bid that it took last, 0 where it took none.
    pub fn newest_taken(&self) -> u32
        ensures { result ≡ newest_number self.now.known.up.takes }
    {
        newest_of(self.takes())
    }

    /// Whether it took the bid with this number, which a price may then name.
    pub fn has_taken(&self, number: u32) -> bool
        ensures { IsTrue result ↔ Contains self.now.known.up.takes number }
    {
        self.takes().contains(&number)
    }

    /// How many prices it may put, and how many bids it may take.
    pub fn room(&self) -> usize
        ensures { result ≡ self.now.room }
    {
        self.room
    }
}

/// The last of these numbers, and 0 where there is none.
fn newest_of(numbers: &[u32]) -> u32
    ensures { result ≡ newest_number numbers.now }
{
    if numbers.is_empty() {
        0
    } else {
        numbers[numbers.len() - 1]
    }
}
