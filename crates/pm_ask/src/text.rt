//! Writes the text of `ask`: the curve, then a line for each target.

ghost use Rattle.std.specs.Prelude.{◌≡◌, ◌<◌, ◌++◌, codes, length, flat_map, All, IfOk, OnOk, string_bytes};
ghost use Rattle.pm_base.specs.Limits.{IsWithin, demand_limit};
ghost use Rattle.pm_ask.specs.Curves.{breaks_of};
ghost use Rattle.pm_ask.specs.Texts.{number_or, ends_text, break_line, answer_line, ask_text};

use crate::breaks::Break;
use crate::curve::Curve;
use pm_basis::Basis;
use pm_bid::{Steps, uncounted};
use std::alloc::{AllocError, Global};
use std::sync::ledger::Ledger;

/// The text of what is asked of a total. It has a line for each step that has targets, rising, with the least and the
/// greatest of them. Then it has a line for each target in order. Prices are in price units, all else is in watts.
///
/// ```text
/// curve step K price X from A to B
/// target Q price X step K total T
/// ```
#[tactic(auto, unfolding(crate::specs::Texts::ask_text))]
pub fn ask_text(
    alloc: Global,
    basis: &Basis,
    curve: &Curve,
    targets: &[i64],
) -> Result<Vec<u8>, AllocError>
    requires steps { length curve.now ≡ basis.now.steps }
    requires within { All (IsWithin demand_limit) targets.now }
    ensures { IfOk result (λ text. text.items ≡ ask_text basis.now curve.now targets.now) }
{
    let mut text = String::new(alloc);
    push_breaks(&mut text, basis, curve.breaks())?;
    push_answers(&mut text, basis, curve, targets)?;
    Ok(text.into_bytes())
}

/// Writes the lines of breaks.
fn push_breaks(text: &mut String, basis: &Basis, breaks: &[Break]) -> Result<(), AllocError>
    requires { All (λ break. break.step < basis.now.steps) breaks.now }
    ensures { OnOk result (string_bytes text.new ≡ string_bytes text.old
        ++ flat_map (break_line basis.now) breaks.now) }
{
    for of_step in breaks {
        push_break(text, basis, of_step)?;
    }
    Ok(())
}

/// Writes the line of a break.
#[tactic(auto, unfolding(crate::specs::Texts::break_line))]
fn push_break(text: &mut String, basis: &Basis, of_step: &Break) -> Result<(), AllocError>
    requires { of_step.now.step < basis.now.steps }
    ensures { OnOk result (string_bytes text.new ≡ string_bytes text.old
        ++ break_line basis.now of_step.now) }
{
    let step = of_step.step;
    let price = basis.price(step as usize);
    write!(text, "curve step {step} price {price} ")?;
    push_ends(text, of_step)
}

/// Writes the end of the line of a break: the least and the greatest target.
fn push_ends(text: &mut String, of_step: &Break) -> Result<(), AllocError>
    ensures { OnOk result (string_bytes text.new ≡ string_bytes text.old ++ ends_text of_step.now) }
{
    text.push_str("from ")?;
    push_number_or(text, of_step.from, "low")?;
    text.push_str(" to ")?;
    push_number_or(text, of_step.to, "high")?;
    text.push_str("\n")
}

/// Writes the number, or this word if there is no number.
fn push_number_or(text: &mut String, number: Option<i64>, word: &str) -> Result<(), AllocError>
    ensures { OnOk result (string_bytes text.new ≡ string_bytes text.old
        ++ number_or word.now number) }
{
    match number {
        Some(number) => write!(text, "{number}"),
        None => text.push_str(word),
    }
}

/// Writes the lines of the answers to targets.
fn push_answers(
    text: &mut String,
    basis: &Basis,
    curve: &Curve,
    targets: &[i64],
) -> Result<(), AllocError>
    requires steps { length curve.now ≡ basis.now.steps }
    requires within { All (IsWithin demand_limit) targets.now }
    ensures { OnOk result (string_bytes text.new ≡ string_bytes text.old
        ++ flat_map (answer_line basis.now curve.now) targets.now) }
{
    let mut counter = uncounted();
    for target in targets {
        push_answer(text, basis, curve, *target, &mut counter)?;
    }
    Ok(())
}

/// Writes the line of the answer to a target.
#[tactic(auto, unfolding(crate::specs::Texts::answer_line))]
fn push_answer<L: Ledger>(
    text: &mut String,
    basis: &Basis,
    curve: &Curve,
    target: i64,
    counter: &mut Steps<L>,
) -> Result<(), AllocError>
    requires steps { length curve.now ≡ basis.now.steps }
    requires within { IsWithin demand_limit target }
    ensures { OnOk result (string_bytes text.new ≡ string_bytes text.old
        ++ answer_line basis.now curve.now target) }
{
    let answer = curve.answer(target, counter);
    let step = answer.step;
    let price = basis.price(step as usize);
    let total = answer.total;
    writeln!(
        text,
        "target {target} price {price} step {step} total {total}"
    )
}
