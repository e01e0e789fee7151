//! Takes the first whole line of a text.

ghost use Rattle.std.specs.Prelude.{◌≡◌, ◌++◌, IfSome, IfNone};
ghost use Rattle.pm_envelope.specs.Lines.{HasNoLineFeed};
ghost use Rattle.pm_check.specs.Lines.{IsWholeLine};

use pm_envelope::split_line;

/// The first whole line of a text, its line feed included, and what follows it, if there is a line feed.
pub(crate) fn split_whole_line(text: &[u8]) -> Option<(&[u8], &[u8])>
    ensures whole { IfSome result (λ parts. IsWholeLine parts.0.now) }
    ensures parts { IfSome result (λ parts. text.now ≡ parts.0.now ++ parts.1.now) }
    ensures none { IfNone result (HasNoLineFeed text.now) }
{
    let (line, _rest) = split_line(text)?;
    Some(text.split_at(line.len() + 1))
}
