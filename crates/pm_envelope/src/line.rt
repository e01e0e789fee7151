//! Splits a text at its first line feed.

ghost use Rattle.std.specs.Prelude.{IfSome, IfNone};
ghost use Rattle.pm_envelope.specs.Lines.{IsFirstLine, HasNoLineFeed};

/// The bytes before the first line feed, and those after it; None if there is no line feed.
pub fn split_line(text: &[u8]) -> Option<(&[u8], &[u8])>
    ensures some { IfSome result (λ parts. IsFirstLine text.now parts.0.now parts.1.now) }
    ensures none { IfNone result (HasNoLineFeed text.now) }
{
    let end = text.iter().position(|byte| *byte == b'\n')?;
    Some((&text[..end], &text[end + 1..]))
}
