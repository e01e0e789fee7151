//! Splits a line into its words.

ghost use Rattle.std.specs.Prelude.{◌≡◌, ◌≢◌, ◌<◌, ◌≤◌, ℕ, true, false, List, [], ◌∷◌, ◌++◌, length, take, slice_index_or};
ghost use Rattle.std.specs.Prelude.{IfSome, IsNone};
ghost use Rattle.std.specs.Str.{IsUtf8};
ghost use Rattle.pm_check.specs.MoveReading.{is_word};

/// How many bytes are before the first that is no byte of a word.
fn word_len(bytes: &[u8]) -> usize
    ensures within { result ≤ length bytes.now }
    ensures word { is_word (take result bytes.now) ≡ true }
    ensures end { result < length bytes.now → slice_index_or bytes.now result 0 ≤ 32 }
{
    for at in 0..bytes.len() {
        if bytes[at] <= b' ' {
            return at;
        }
    }
    bytes.len()
}

/// The first word, and what follows the blank behind it. It is None exactly if no word with a blank behind it comes first.
pub(crate) fn split_word(bytes: &[u8]) -> Option<(&[u8], &[u8])>
    ensures told { IfSome result (λ split. (is_word split.0.now ≡ true)
        × (bytes.now ≡ split.0.now ++ 32 ∷ split.1.now)) }
    ensures none { IsNone result → (word rest : List ℕ) → is_word word ≡ true →
        bytes.now ≢ word ++ 32 ∷ rest }
{
    let end = word_len(bytes);
    if end < bytes.len() && bytes[end] == b' ' {
        Some((&bytes[..end], &bytes[end + 1..]))
    } else {
        None
    }
}

/// What follows this word and the blank behind it. It is None exactly if the bytes do not begin with the word and a blank.
pub(crate) fn after_word<'a>(bytes: &'a [u8], word: &[u8]) -> Option<&'a [u8]>
    ensures told { IfSome result (λ rest. bytes.now ≡ word.now ++ 32 ∷ rest.now) }
    ensures none { IsNone result → is_word word.now ≡ true → (rest : List ℕ) →
        bytes.now ≢ word.now ++ 32 ∷ rest }
{
    let (first, rest) = split_word(bytes)?;
    if is_same(first, word) {
        Some(rest)
    } else {
        None
    }
}

/// The word that a line feed ends. It is None exactly if the bytes are not one word and a line feed.
pub(crate) fn last_word(bytes: &[u8]) -> Option<&[u8]>
    ensures told { IfSome result (λ word. (is_word word.now ≡ true)
        × (bytes.now ≡ word.now ++ 10 ∷ [])) }
    ensures none { IsNone result → (word : List ℕ) → is_word word ≡ true →
        bytes.now ≢ word ++ 10 ∷ [] }
{
    let end = word_len(bytes);
    if end < bytes.len() && bytes[end] == b'\n' && end + 1 == bytes.len() {
        Some(&bytes[..end])
    } else {
        None
    }
}

/// A word as text. It is None exactly if the word is not UTF-8.
pub(crate) fn word_text(word: &[u8]) -> Option<&str>
    ensures text { IfSome result (λ text. text.now ≡ word.now) }
    ensures none { IsNone result → ¬ (IsUtf8 word.now) }
{
    match str::from_utf8(word) {
        Ok(text) => Some(text),
        Err(_) => None,
    }
}

/// Whether two words are the same.
pub(crate) fn is_same(one: &[u8], other: &[u8]) -> bool
    ensures same { result ≡ true → one.now ≡ other.now }
    ensures differ { result ≡ false → one.now ≢ other.now }
{
    one == other
}
