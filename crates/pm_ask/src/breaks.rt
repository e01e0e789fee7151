//! The steps that answer some target, each with the least and the greatest of its targets.

ghost use Rattle.std.specs.Prelude.{◌≡◌, ◌<◌, length, IfOk};
ghost use Rattle.pm_base.specs.Limits.{most_steps};
ghost use Rattle.pm_ask.specs.Curves.{least_of, greatest_of, are_crossed, break_at, breaks_of};

use pm_bid::{ArrayBid, uncounted};
use std::alloc::{AllocError, Global};

/// A step that has targets, and which: all whole numbers of watts from the least to the greatest.
#[derive(Clone, Copy, Debug, PartialEq, Eq)]
pub struct Break {
    /// The step.
    pub step: u32,
    /// Its least target, if it has a least one.
    pub from: Option<i64>,
    /// Its greatest target, if it has a greatest one.
    pub to: Option<i64>,
}

/// The breaks of a total, by rising steps.
pub(crate) fn find_breaks(alloc: Global, total: &ArrayBid) -> Result<Vec<Break>, AllocError>
    ensures { IfOk result (λ breaks. breaks.items ≡ breaks_of total.now) }
{
    let mut breaks = Vec::new(alloc);
    for step in 0..total.steps() {
        if let Some(found) = break_at(total, step) {
            breaks.push(found)?;
        }
    }
    Ok(breaks)
}

/// The break of a step, if it has targets.
fn break_at(total: &ArrayBid, step: usize) -> Option<Break>
    requires inside { step < length total.now }
    requires small { step < most_steps }
    ensures { result ≡ break_at total.now step }
{
    let from = least_of(total, step);
    let to = greatest_of(total, step);
    if are_crossed(from, to) {
        return None;
    }
    Some(Break {
        step: step as u32,
        from,
        to,
    })
}

/// The least target of a step: the total there. The last step has no least one.
fn least_of(total: &ArrayBid, step: usize) -> Option<i64>
    requires { step < length total.now }
    ensures { result ≡ least_of total.now step }
{
    if step < total.steps() - 1 {
        Some(total.at(step, &mut uncounted()))
    } else {
        None
    }
}

/// The greatest target of a step: the greatest number below the total at the step before. Step 0 has no greatest one.
fn greatest_of(total: &ArrayBid, step: usize) -> Option<i64>
    requires { step < length total.now }
    ensures { result ≡ greatest_of total.now step }
{
    if step > 0 {
        Some(total.at(step - 1, &mut uncounted()) - 1)
    } else {
        None
    }
}

/// Whether the greatest target is below the least, so that nothing lies between them.
fn are_crossed(from: Option<i64>, to: Option<i64>) -> bool
    ensures { result ≡ are_crossed from to }
{
    match (from, to) {
        (Some(least), Some(greatest)) => greatest < least,
        _ => false,
    }
}
