//! The form of a name: 1 to 32 bytes, a letter first, then letters, digits, `_` and `-`.

ghost use Rattle.std.specs.Prelude.{◌≡◌};
ghost use Rattle.std.specs.List.{list_all};
ghost use Rattle.pm_tree.specs.Names.{is_name, is_name_byte, is_rest_of_name, has_name_form};

/// The name of node 0, which no entry may have.
pub(crate) const AUCTIONEER: &str = "auctioneer";

/// The most bytes that a name may have.
const MAX_NAME_BYTES: usize = 32;

/// Whether an entry may have the name. It has 1 to 32 bytes, an ASCII letter first, then ASCII
/// letters, digits, `_` and `-`. It is not the auctioneer's name.
#[tactic(auto, unfolding(crate::specs::Names::is_name))]
pub(crate) fn is_name(name: &str) -> bool
    ensures { result ≡ is_name name.now }
{
    has_name_form(name.as_bytes()) && name != AUCTIONEER
}

/// Whether the bytes have the form of a name.
fn has_name_form(bytes: &[u8]) -> bool
    ensures { result ≡ has_name_form bytes.now }
{
    match bytes {
        [] => false,
        [first, rest @ ..] => first.is_ascii_alphabetic() && is_rest_of_name(rest),
    }
}

/// Whether the bytes may follow the first letter of a name.
fn is_rest_of_name(rest: &[u8]) -> bool
    ensures { result ≡ is_rest_of_name rest.now }
{
    rest.len() < MAX_NAME_BYTES && are_name_bytes(rest)
}

/// Whether each byte may follow the first letter of a name.
fn are_name_bytes(bytes: &[u8]) -> bool
    ensures { result ≡ list_all is_name_byte bytes.now }
{
    bytes.iter().all(|byte| is_name_byte(*byte))
}

/// Whether the byte is an ASCII letter or digit, `_` or `-`.
fn is_name_byte(byte: u8) -> bool
    ensures { result ≡ is_name_byte byte }
{
    byte.is_ascii_alphanumeric() || byte == b'_' || byte == b'-'
}
