//! The digest by which a script's code is known.

ghost use Rattle.std.specs.Prelude.{◌≡◌};
ghost use Rattle.sha2.specs.Sha256.{sha256};

use sha2::{Digest, Sha256};

/// The SHA-256 of a text, by FIPS 180-4.
pub(crate) fn digest_of(text: &[u8]) -> [u8; 32]
    ensures { result ≡ sha256 text.now }
{
    let mut hasher = Sha256::new();
    hasher.update(text);
    hasher.finalize()
}
