//! Writes the line of a refusal: its code, its place and the item at fault.

ghost use Rattle.std.specs.Prelude.{◌≡◌, IfOk, string_bytes};
ghost use Rattle.pm_report.specs.Refusal.{place_text, refusal_line};

use pm_plan::{Place, Refusal};
use std::alloc::{AllocError, Global};

/// The place of a refusal.
fn place_text(alloc: Global, place: Place) -> Result<String, AllocError>
    ensures { IfOk result (λ text. string_bytes text ≡ place_text place) }
{
    match place {
        Place::Document => format!(in alloc; "document"),
        Place::Basis => format!(in alloc; "basis"),
        Place::Node { number } => format!(in alloc; "node {number}"),
        Place::Phase { number } => format!(in alloc; "phase {number}"),
        Place::Event { phase, number } => format!(in alloc; "event {phase} {number}"),
        Place::Line { number } => format!(in alloc; "line {number}"),
    }
}

/// The line of a refusal: `refused CODE PLACE`, and `item I` after it if there is an item. The place is `document`,
/// `basis`, `node N`, `phase P`, `event P E` or `line N`.
pub fn refusal_line(alloc: Global, refusal: &Refusal) -> Result<Vec<u8>, AllocError>
    ensures { IfOk result (λ text. text.items ≡ refusal_line refusal.now) }
{
    let code = refusal.code;
    let place = place_text(alloc, refusal.place)?;
    let line = match refusal.item {
        Some(item) => format!(in alloc; "refused {code} {place} item {item}\n")?,
        None => format!(in alloc; "refused {code} {place}\n")?,
    };
    Ok(line.into_bytes())
}
