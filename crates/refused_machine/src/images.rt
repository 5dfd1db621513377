//! Clauses of `lsl_image`.

ghost use Rattle.std.specs.Prelude.{◌≡◌, IfErr, IfOk};
ghost use Rattle.lsl_image.specs.Images.{ObjectFirst, ObjectImage};
ghost use Rattle.lsl_image.specs.Reading.{IsRefusedBy};

use lsl_code::Library;
use lsl_image::{ImageFault, ObjectParts, Shape, read_object};
use lsl_text::Refusal;
use lsl_value::Text;
use std::alloc::Global;

/// As `read_object`.
pub fn object_read(
    alloc: Global,
    bytes: &[u8],
    region: &Text,
    shape: &Shape,
    library: &Library,
) -> Result<ObjectParts, Refusal<ImageFault>>
    ensures found { IfOk result (λ parts. ObjectImage region.now shape.now library.now parts bytes.now) }
    ensures first { IfErr result (IsRefusedBy (ObjectFirst region.now shape.now library.now bytes.now)) }
{
    read_object(alloc, bytes, region, shape, library)
}
