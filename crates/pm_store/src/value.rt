//! The value of a node's store: the number of the start that put it there, the newest Resume, and the Bid that is stored with it.

ghost use Rattle.std.specs.Prelude.{◌≡◌, ◌≤◌, length, drop, IfOk};
ghost use Rattle.std.specs.Int.{w64, from_be_bytes};
ghost use Rattle.pm_store.specs.Values as values;

use std::alloc::{AllocError, Global};

/// Where the Resume begins: behind the number of the start and the length of the Resume.
const HEAD: usize = 16;

/// What a node comes back with.
#[derive(Drop)]
pub struct KeptFrames {
    /// The newest Resume; empty if there is none.
    pub resume: Vec<u8>,
    /// The Bid that is stored with it; empty if there is none.
    pub bid: Vec<u8>,
}

/// The value for the store: the start `u64`, the length of the Resume in bytes `u64`, the Resume, and the Bid.
pub fn node_value(
    alloc: Global,
    start: u64,
    resume: &[u8],
    bid: &[u8],
) -> Result<Vec<u8>, AllocError>
    ensures { IfOk result (λ v. v.items
        ≡ values.node_value start (record { resume = resume.now; bid = bid.now })) }
{
    let mut value = start.to_be_bytes().to_vec(alloc)?;
    let length = resume.len() as u64;
    value.extend_from_slice(&length.to_be_bytes())?;
    value.extend_from_slice(resume)?;
    value.extend_from_slice(bid)?;
    Ok(value)
}

/// The number in the first eight bytes.
fn first_u64(bytes: &[u8]) -> u64
    requires { 8 ≤ length bytes.now }
    ensures { result ≡ from_be_bytes w64 bytes.now }
{
    u64::from_be_bytes([
        bytes[0], bytes[1], bytes[2], bytes[3], bytes[4], bytes[5], bytes[6], bytes[7],
    ])
}

/// The number of the start that put this value there; 0 if none did.
pub fn stored_start(value: &[u8]) -> u64
    ensures { result ≡ values.stored_start value.now }
{
    if value.len() < HEAD {
        return 0;
    }
    first_u64(value)
}

/// How long the Resume in a value is.
fn resume_length(value: &[u8]) -> usize
    requires { 16 ≤ length value.now }
    ensures { result ≡ values.resume_length value.now }
{
    let length = first_u64(&value[8..]) as usize;
    length.min(value.len() - HEAD)
}

/// What the node that put this value there comes back with.
pub fn stored_kept(alloc: Global, value: &[u8]) -> Result<KeptFrames, AllocError>
    ensures resume { IfOk result (λ kept. kept.resume.items ≡ values.stored_resume value.now) }
    ensures bid { IfOk result (λ kept. kept.bid.items ≡ values.stored_bid value.now) }
{
    if value.len() < HEAD {
        return Ok(KeptFrames {
            resume: Vec::new(alloc),
            bid: Vec::new(alloc),
        });
    }
    let length = resume_length(value);
    let rest = &value[HEAD..];
    Ok(KeptFrames {
        resume: rest[..length].to_vec(alloc)?,
        bid: rest[length..].to_vec(alloc)?,
    })
}
