//! Reads the parts of a line: nodes, numbers, and the price that a device holds.

ghost use Rattle.std.specs.Prelude.{◌≡◌, ◌<◌, ◌≤◌, ◌^◌, ◌∷◌, [], codes, decimal, length, Some};
ghost use Rattle.std.specs.Fmt.{signed_decimal};
ghost use Rattle.pm_basis.specs.Prices.{IsBasis, price_at};
ghost use Rattle.pm_plan.specs.Kept.{IsPlan};
ghost use Rattle.pm_plan.specs.Plans.{parent, is_leaf};
ghost use Rattle.pm_report.specs.Words.{name, text_line};
ghost use Rattle.pm_report.specs.Trace.{held_words, device_words};
ghost use Rattle.pm_check.specs.MoveReading.{Reads, IsHolding, IsPassed, IsPassing};

use crate::reading::names::node_named;
use crate::reading::numbers::{read_last_number, read_number};
use crate::reading::prices::read_step;
use crate::reading::words::{after_word, is_same, split_word};
use pm_basis::Basis;
use pm_plan::Plan;
use pm_tree::NodeId;

/// A node and a number.
pub(crate) fn read_node_number(plan: &Plan, rest: &[u8]) -> Option<(u32, u32)>
    requires { IsPlan plan.now }
    ensures { Reads (λ read. (read.0 ≤ length plan.now.nodes) × (read.1 < 2 ^ 32))
        (λ read. text_line (name plan.now read.0 ∷ decimal read.1 ∷ [])) rest.now result }
{
    let (word, rest) = split_word(rest)?;
    let node = node_named(plan, word)?;
    let number = read_last_number(rest)?;
    Some((node, number))
}

/// A child, behind the name of its parent, and a number.
pub(crate) fn read_learning(plan: &Plan, rest: &[u8]) -> Option<(u32, u32)>
    requires { IsPlan plan.now }
    ensures { Reads (λ read. (1 ≤ read.0) × (read.0 ≤ length plan.now.nodes) × (read.1 < 2 ^ 32))
        (λ read. text_line
        (name plan.now (parent plan.now read.0) ∷ name plan.now read.0 ∷ decimal read.1 ∷ []))
        rest.now result }
{
    let (above, rest) = split_word(rest)?;
    let (child, number) = read_node_number(plan, rest)?;
    if child == 0 {
        return None;
    }
    let parent = plan.tree().parent(NodeId(child));
    if !is_same(above, plan.tree().name(parent).as_bytes()) {
        return None;
    }
    Some((child, number))
}

/// The step and the number of a price that is held.
fn read_price(basis: &Basis, rest: &[u8]) -> Option<(u32, u32)>
    requires { IsBasis basis.now }
    ensures { Reads (λ read. (read.0 < basis.now.steps) × (read.1 < 2 ^ 32))
        (λ read. text_line (held_words basis.now (Some read))) rest.now result }
{
    let rest = after_word(rest, b"price".as_slice())?;
    read_priced(basis, rest)
}

/// The step of a price, and the number of the bid behind it.
fn read_priced(basis: &Basis, rest: &[u8]) -> Option<(u32, u32)>
    requires { IsBasis basis.now }
    ensures { Reads (λ read. (read.0 < basis.now.steps) × (read.1 < 2 ^ 32))
        (λ read. text_line
        (signed_decimal (price_at basis.now read.0) ∷ codes "bid" ∷ decimal read.1 ∷ [])) rest.now
        result }
{
    let (price, rest) = split_word(rest)?;
    let step = read_step(basis, price)?;
    let number = read_bid_number(rest)?;
    Some((step, number))
}

/// The number of a bid, behind the word for it.
fn read_bid_number(rest: &[u8]) -> Option<u32>
    ensures { Reads (λ n. n < 2 ^ 32) (λ n. text_line (codes "bid" ∷ decimal n ∷ [])) rest.now
        result }
{
    let rest = after_word(rest, b"bid".as_slice())?;
    read_last_number(rest)
}

/// What a device holds.
fn read_held(basis: &Basis, rest: &[u8]) -> Option<Option<(u32, u32)>>
    requires { IsBasis basis.now }
    ensures { Reads (IsHolding basis.now) (λ held. text_line (held_words basis.now held)) rest.now
        result }
{
    if is_same(rest, b"none\n".as_slice()) {
        return Some(None);
    }
    let held = read_price(basis, rest)?;
    Some(Some(held))
}

/// The index of a clearing, and what a device then holds.
fn read_device_pass(basis: &Basis, rest: &[u8]) -> Option<(u32, Option<(u32, u32)>)>
    requires { IsBasis basis.now }
    ensures { Reads (λ read. (read.0 < 2 ^ 32) × IsHolding basis.now read.1)
        (λ read. text_line (decimal read.0 ∷ held_words basis.now read.1)) rest.now result }
{
    let (word, rest) = split_word(rest)?;
    let index = read_number(word)?;
    let held = read_held(basis, rest)?;
    Some((index, held))
}

/// The index of the clearing that is passed to a node, and what a device then holds.
fn read_passed(
    plan: &Plan,
    basis: &Basis,
    node: u32,
    rest: &[u8],
) -> Option<(u32, Option<(u32, u32)>)>
    requires plan { IsPlan plan.now }
    requires basis { basis.now ≡ plan.now.basis }
    requires inside { node ≤ length plan.now.nodes }
    ensures { Reads (IsPassed plan.now node) (λ read.
        text_line (decimal read.0 ∷ device_words (is_leaf plan.now node) plan.now.basis read.1))
        rest.now result }
{
    if plan.tree().is_leaf(NodeId(node)) {
        read_device_pass(basis, rest)
    } else {
        let index = read_last_number(rest)?;
        Some((index, None))
    }
}

/// A node, the index of the clearing that is passed to it, and what a device then holds.
pub(crate) fn read_passing(
    plan: &Plan,
    basis: &Basis,
    rest: &[u8],
) -> Option<(u32, u32, Option<(u32, u32)>)>
    requires plan { IsPlan plan.now }
    requires basis { basis.now ≡ plan.now.basis }
    ensures { Reads (IsPassing plan.now) (λ read.
        text_line (name plan.now read.0 ∷ decimal read.1 ∷ device_words
        (is_leaf plan.now read.0) plan.now.basis read.2)) rest.now result }
{
    let (word, rest) = split_word(rest)?;
    let node = node_named(plan, word)?;
    if node == 0 {
        return None;
    }
    let (index, held) = read_passed(plan, basis, node, rest)?;
    Some((node, index, held))
}
