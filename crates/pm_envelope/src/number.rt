//! Reads a decimal number up to a limit, with no sign and no leading zero.

ghost use Rattle.std.specs.Prelude.{◌≡◌, ◌≢◌, ℕ, ◌≤◌, ◌==◌, ◌&&◌, nat_lt, length, slice_index, IfSome, IfNone, decimal};
ghost use Rattle.std.specs.Option.{SomeIff};
ghost use Rattle.std.specs.Str.Parse.{AllDigits, digits_value};

/// The number that a text writes in decimal digits, without sign or leading zero, if it is at most `most`.
pub fn number_up_to(most: u32, text: &[u8]) -> Option<u32>
    ensures most { IfSome result (λ number. number ≤ most) }
    ensures text { IfSome result (λ number. text.now ≡ decimal number) }
    ensures none { IfNone result ((number : ℕ) → number ≤ most → text.now ≢ decimal number) }
{
    if text.is_empty() || has_leading_zero(text) {
        return None;
    }
    value_of_digits(most, text)
}

/// Whether a zero comes before other bytes.
fn has_leading_zero(text: &[u8]) -> bool
    ensures { result ≡ (nat_lt 1 (length text.now) && (slice_index text.now 0 == 48)) }
{
    text.len() > 1 && text[0] == b'0'
}

/// The value of decimal digits, if all bytes are digits and it is at most `most`.
fn value_of_digits(most: u32, digits: &[u8]) -> Option<u32>
    ensures { SomeIff result (AllDigits 10 digits.now × (digits_value 10 digits.now ≤ most))
        (digits_value 10 digits.now) }
{
    let mut value = 0;
    for byte in digits {
        let digit = char::from(*byte).to_digit(10)?;
        value = value * 10 + u64::from(digit);
        if value > u64::from(most) {
            return None;
        }
    }
    Some(value as u32)
}
