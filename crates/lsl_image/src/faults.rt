//! What is wrong with bytes that aren't an image.

ghost use Rattle.std.specs.Prelude.{◌≡◌};
ghost use Rattle.lsl_text.specs.declared.Refusal.TheVariants.{Fault};
ghost use Rattle.lsl_image.specs.declared.faults.ImageFault.TheVariants.{Body};

use lsl_text::Refusal;

/// Why bytes aren't an image: the first fault in the order of the tests.
#[derive(Clone, Copy, PartialEq, Eq)]
pub enum ImageFault {
    /// There are `found` bytes; the image says `wanted`.
    Size { found: u64, wanted: u64 },
    /// The digest of the bytes is `found`; the image says `wanted`.
    Digest { found: [u8; 32], wanted: [u8; 32] },
    /// The image has a version that isn't known.
    Version(u16),
    /// A script has this digest, and its unit that one.
    WrongCode { found: [u8; 32], wanted: [u8; 32] },
    /// The field that begins at this place can't be.
    Body(u64),
    /// The text of a frozen world has no image.
    NotFrozen,
}

/// The field at this place can't be.
pub(crate) fn wrong(place: usize) -> Refusal<ImageFault>
    ensures { result ≡ Fault (Body place) }
{
    Refusal::Fault(ImageFault::Body(place as u64))
}
