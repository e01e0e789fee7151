//! Splits an input into the cluster file that it begins with and the rest, for `check` and `ask`.

ghost use Rattle.std.specs.Prelude.{◌≡◌, ℕ, List, IfSome, IfNone};
ghost use Rattle.pm_envelope.specs.Envelopes.{IsEnvelope};

use crate::line::split_line;
use crate::number::number_up_to;

/// The most bytes of a cluster file.
pub const FILE_LIMIT: u32 = 4_194_304;

/// The parts of an input that begins with a cluster file.
#[derive(Clone, Copy, Debug)]
pub struct Envelope<'a> {
    /// The bytes of the cluster file.
    pub file: &'a [u8],
    /// The bytes after it.
    pub rest: &'a [u8],
}

/// The cluster file that an input begins with, and the rest. The first line has the number of the file's bytes, at most
/// [`FILE_LIMIT`], in decimal digits without sign or leading zero. None is answered exactly if the input does not begin
/// so.
pub fn open_envelope(input: &[u8]) -> Option<Envelope<'_>>
    ensures some { IfSome result
        (λ envelope. IsEnvelope input.now envelope.file.now envelope.rest.now) }
    ensures none { IfNone result ((file rest : List ℕ) → ¬ (IsEnvelope input.now file rest)) }
{
    let (header, body) = split_line(input)?;
    let length = number_up_to(FILE_LIMIT, header)? as usize;
    if body.len() < length {
        return None;
    }
    let (file, rest) = body.split_at(length);
    Some(Envelope { file, rest })
}

/// A law: an input is an envelope of one file and one rest at most.
pub fn envelopes_are_unique()
    ensures { (input file rest other_file other_rest : List ℕ) → IsEnvelope input file rest →
        IsEnvelope input other_file other_rest →
        (file ≡ other_file) × (rest ≡ other_rest) }
{}
