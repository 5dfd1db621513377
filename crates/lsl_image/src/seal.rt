//! What is around the fields of an image: its size, and the digest of all before it.

ghost use Rattle.std.specs.Prelude.{◌≡◌, ◌+◌, length, take, drop, MatchResult};
ghost use Rattle.std.specs.Str.{bytes_eq};
ghost use Rattle.sha2.specs.Sha256.{sha256};
ghost use Rattle.lsl_text.specs.declared.Refusal.TheVariants.{Fault};
ghost use Rattle.lsl_image.specs.declared.faults.ImageFault.TheVariants.{Size};
ghost use Rattle.lsl_image.specs.Images.{HasSize, IsDigestFault, IsIntact, IsOuterFault, covered};
ghost use Rattle.lsl_image.specs.Reading.{IsRefusedBy};

use crate::faults::ImageFault;
use crate::fields::read_array;
use lsl_text::Refusal;
use sha2::{Digest, Sha256};

/// How many bytes an image has at least: its letters, its version, its size and its digest.
const LEAST_BYTES: usize = 46;

/// The place of the size.
const SIZE_PLACE: usize = 6;

/// How many bytes the digest has.
pub const DIGEST_BYTES: usize = 32;

/// The bytes before the digest, where the size is that of the bytes and the digest is theirs.
pub fn open(bytes: &[u8]) -> Result<&[u8], Refusal<ImageFault>>
    ensures { MatchResult result (λ fields. IsIntact bytes.now × (fields.now ≡ covered bytes.now))
        (IsRefusedBy (IsOuterFault bytes.now)) }
{
    check_size(bytes)?;
    let end = bytes.len() - DIGEST_BYTES;
    check_digest(bytes, end)?;
    Ok(&bytes[..end])
}

// Whether the named size is that of the bytes.
fn check_size(bytes: &[u8]) -> Result<(), Refusal<ImageFault>>
    ensures { MatchResult result (λ _. HasSize bytes.now) (IsRefusedBy (IsOuterFault bytes.now)) }
{
    if bytes.len() < LEAST_BYTES {
        return Err(other_size(bytes, LEAST_BYTES as u64));
    }
    let (size, _next) = read_array(bytes, SIZE_PLACE)?;
    let wanted = u64::from_be_bytes(size);
    if wanted != bytes.len() as u64 {
        return Err(other_size(bytes, wanted));
    }
    Ok(())
}

// The bytes have another size than this.
fn other_size(bytes: &[u8], wanted: u64) -> Refusal<ImageFault>
    ensures { result ≡ Fault (Size (length bytes.now) wanted) }
{
    let found = bytes.len() as u64;
    Refusal::Fault(ImageFault::Size { found, wanted })
}

// Whether the digest of the bytes up to this end is the one after them.
fn check_digest(bytes: &[u8], end: usize) -> Result<(), Refusal<ImageFault>>
    requires { end + 32 ≡ length bytes.now }
    ensures { MatchResult result (λ _. drop end bytes.now ≡ sha256 (take end bytes.now))
        (IsRefusedBy (IsDigestFault (take end bytes.now) (drop end bytes.now))) }
{
    let found = digest_of(&bytes[..end]);
    let (wanted, _next) = read_array(bytes, end)?;
    if !are_same(&found, &wanted) {
        return Err(Refusal::Fault(ImageFault::Digest { found, wanted }));
    }
    Ok(())
}

/// The SHA-256 of the bytes, by FIPS 180-4.
pub fn digest_of(bytes: &[u8]) -> [u8; 32]
    ensures { result ≡ sha256 bytes.now }
{
    let mut hasher = Sha256::new();
    hasher.update(bytes);
    hasher.finalize()
}

/// Whether two digests are the same.
pub fn are_same(found: &[u8; 32], wanted: &[u8; 32]) -> bool
    ensures { result ≡ bytes_eq found.now wanted.now }
{
    found == wanted
}
