//! Opens a link with its two ends, and closes it once both are back.

ghost use Rattle.std.specs.Prelude.{◌≡◌, ◌≤◌, IfOk};
ghost use Rattle.pm_cells.specs.Numbers.{AreRising, AllAmong};
ghost use Rattle.pm_cells.specs.Steps.{child_view, parent_view};
ghost use Rattle.pm_cells.specs.Calls.{IsUnused};
ghost use Rattle.pm_cells.specs.Ends.{LinkEnd};

use crate::ends::{BIDS, ChildEnd, PRICES, ParentEnd};
use crate::message::Message;
use crate::steps::{Cells, Ends};
use crate::view::EndView;
use atomic_table::Table;
use std::alloc::{AllocError, Global};
use std::marker::Model;

/// The two cells of a link, which the threads of both ends share.
///
/// Contracts see which link it is.
#[derive(Drop)]
pub struct FreeLink {
    pub(crate) table: Table<Option<Message>, EndView, (), Cells, Global>,
}

impl Model for FreeLink {
    ghost use Rattle.std.specs.Prelude.{◌≡◌};
    ghost use Rattle.atomic_table.specs.Seated.{TableId};

    ghost Value = { TableId };

    ghost view = { λ l. l.table.shared.table_id };

    ghost invariant = { λ l. (l.table.shared.table_id.words ≡ 2) × (l.table.shared.table_id.slots ≡ 2) };
}

/// What the two ends of a link put and took, each list in order.
#[derive(Debug, Drop)]
pub struct LinkLog {
    /// The numbers of the bids that the child's end put.
    pub bid_puts: Vec<u32>,
    /// The numbers of the bids that the parent's end took.
    pub bid_takes: Vec<u32>,
    /// The indices of the prices that the parent's end put.
    pub price_puts: Vec<u32>,
    /// The indices of the prices that the child's end took.
    pub price_takes: Vec<u32>,
}

/// A new link and its two ends, each with room for so many numbers put and so many taken. All memory of the link is taken
/// here.
pub fn open_link(alloc: Global, room: usize) -> Result<(FreeLink, ChildEnd, ParentEnd), AllocError>
    ensures child { IfOk result (λ opened. opened.1
        ≡ record { link = opened.0; known = child_view; room = room }) }
    ensures parent { IfOk result (λ opened. opened.2
        ≡ record { link = opened.0; known = parent_view; room = room }) }

    // The same in numbers and lists: both ends begin with no message and no count.
    ensures child_bids { IfOk result (λ opened. IsUnused opened.1.known.up) }
    ensures child_prices { IfOk result (λ opened. IsUnused opened.1.known.down) }
    ensures parent_bids { IfOk result (λ opened. IsUnused opened.2.known.up) }
    ensures parent_prices { IfOk result (λ opened. IsUnused opened.2.known.down) }
{
    let bid_puts = Vec::with_capacity(alloc, room)?;
    let bid_takes = Vec::with_capacity(alloc, room)?;
    let price_puts = Vec::with_capacity(alloc, room)?;
    let price_takes = Vec::with_capacity(alloc, room)?;
    let (table, mut seat) = Table::vacant(alloc, &[0, 0], 2, &())?;
    let other = table.shared.split_seat::<Ends>(&mut seat);
    let child = ChildEnd {
        seat,
        room,
        puts: bid_puts,
        takes: price_takes,
    };
    let parent = ParentEnd {
        seat: other,
        room,
        puts: price_puts,
        takes: bid_takes,
    };
    Ok((FreeLink { table }, child, parent))
}

/// Closes a link once both of its ends are back, and tells what they put and took. In each cell the numbers taken rise,
/// and each of them was put. Each bid that the parent's end took is one that the child's end put, with its demand, and
/// each price that the child's end took is one that the parent's end put, with its step and the bid that it names.
pub fn close_link(link: FreeLink, child: ChildEnd, parent: ParentEnd) -> LinkLog
    requires child { child.link ≡ link }
    requires parent { parent.link ≡ link }
    ensures bid_puts { result.bid_puts.items ≡ child.known.up.puts }
    ensures bid_takes { result.bid_takes.items ≡ parent.known.up.takes }
    ensures price_puts { result.price_puts.items ≡ parent.known.down.puts }
    ensures price_takes { result.price_takes.items ≡ child.known.down.takes }
    ensures bids_rise { AreRising result.bid_takes.items }
    ensures bids_were_put { AllAmong result.bid_takes.items result.bid_puts.items }
    ensures prices_rise { AreRising result.price_takes.items }
    ensures prices_were_put { AllAmong result.price_takes.items result.price_puts.items }
    ensures bids_are_those_put { AllAmong parent.known.up.received child.known.up.sent }
    ensures prices_are_those_put { AllAmong child.known.down.received parent.known.down.sent }
{
    let FreeLink { table } = link;
    let ChildEnd {
        mut seat,
        room: _,
        puts: bid_puts,
        takes: price_takes,
    } = child;
    let ParentEnd {
        seat: other,
        room: _,
        puts: price_puts,
        takes: bid_takes,
    } = parent;
    table.shared.join_seat::<Ends>(&mut seat, other);
    let mut closed = table.close_with(seat);
    drop(closed.take(BIDS));
    drop(closed.take(PRICES));
    closed.free();
    LinkLog {
        bid_puts,
        bid_takes,
        price_puts,
        price_takes,
    }
}
