//! What is around the fields of a note: its size, and the digest of all before it.

ghost use Rattle.std.specs.Prelude.{◌≡◌, ◌+◌, ◌≤◌, length, Option, Some, MatchResult};
ghost use Rattle.std.specs.Str.{bytes_eq};
ghost use Rattle.sha2.specs.Sha256.{sha256};
ghost use Rattle.lsl_text.specs.declared.Refusal.TheVariants.{Fault};
ghost use Rattle.lsl_handoff.specs.declared.faults.NoteFault.{NoteFault as AFault};
ghost use Rattle.lsl_handoff.specs.declared.faults.NoteFault.TheVariants.{Size};
ghost use Rattle.lsl_handoff.specs.NoteFaults.{IsRefusedBy, covered, outer_fault, part_at};

use crate::faults::NoteFault;
use lsl_text::Refusal;
use sha2::{Digest, Sha256};

/// How many bytes a note has at least: its head, its fields without a parcel, and its digest.
const LEAST_BYTES: usize = 67;

/// The place of the size.
const SIZE_PLACE: usize = 6;

/// How many bytes the digest has.
pub const DIGEST_BYTES: usize = 32;

/// The bytes before the digest, where the size is that of the bytes and the digest is theirs.
pub fn open(bytes: &[u8]) -> Result<&[u8], Refusal<NoteFault>>
    ensures { MatchResult result
        (λ fields. (fields.now ≡ covered bytes.now) × (67 ≤ length bytes.now)
        × ((next : Option AFault) → outer_fault bytes.now next ≡ next))
        (IsRefusedBy (λ fault. (next : Option AFault) → outer_fault bytes.now next ≡ Some fault)) }
{
    if bytes.len() < LEAST_BYTES {
        return Err(other_size(bytes, LEAST_BYTES as u64));
    }
    let wanted = u64::from_be_bytes(part_at(bytes, SIZE_PLACE));
    if wanted != bytes.len() as u64 {
        return Err(other_size(bytes, wanted));
    }
    let end = bytes.len() - DIGEST_BYTES;
    let found = digest_of(&bytes[..end]);
    let wanted = part_at(bytes, end);
    if found != wanted {
        return Err(Refusal::Fault(NoteFault::Digest { found, wanted }));
    }
    Ok(&bytes[..end])
}

// The bytes have another size than this.
fn other_size(bytes: &[u8], wanted: u64) -> Refusal<NoteFault>
    ensures { result ≡ Fault (Size (length bytes.now) wanted) }
{
    let found = bytes.len() as u64;
    Refusal::Fault(NoteFault::Size { found, wanted })
}

/// The SHA-256 of the bytes, by FIPS 180-4.
pub fn digest_of(bytes: &[u8]) -> [u8; 32]
    ensures { result ≡ sha256 bytes.now }
{
    let mut hasher = Sha256::new();
    hasher.update(bytes);
    hasher.finalize()
}

/// `N` bytes at a place.
pub fn part_at<const N: usize>(bytes: &[u8], place: usize) -> [u8; N]
    requires { place + N ≤ length bytes.now }
    ensures { result ≡ part_at bytes.now place N }
{
    let mut part = [0; N];
    part.copy_from_slice(&bytes[place..place + N]);
    part
}
