//! Reads the numbers of a line.

ghost use Rattle.std.specs.Prelude.{◌<◌, ◌^◌, ◌∷◌, [], decimal};
ghost use Rattle.pm_report.specs.Words.{text_line};
ghost use Rattle.pm_check.specs.MoveReading.{Reads};

use crate::reading::words::{last_word, word_text};

/// The number of 32 bits that a word is.
pub(crate) fn read_number(word: &[u8]) -> Option<u32>
    ensures { Reads (λ n. n < 2 ^ 32) decimal word.now result }
{
    if word.is_empty() || word[0] == b'+' {
        return None;
    }
    if word[0] == b'0' && word.len() > 1 {
        return None;
    }
    let digits = word_text(word)?;
    match digits.parse::<u32>() {
        Ok(number) => Some(number),
        Err(_) => None,
    }
}

/// The number of 32 bits that is the last word of a line.
pub(crate) fn read_last_number(rest: &[u8]) -> Option<u32>
    ensures { Reads (λ n. n < 2 ^ 32) (λ n. text_line (decimal n ∷ [])) rest.now result }
{
    let word = last_word(rest)?;
    read_number(word)
}
