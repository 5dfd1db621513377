//! Images of objects and worlds.

ghost use Rattle.std.specs.Prelude.{IfErr, IfOk};
ghost use Rattle.lsl_image.specs.declared.faults.ImageFault.{ImageFault as AFault};
ghost use Rattle.lsl_image.specs.declared.parts.ObjectParts.{ObjectParts as AnObject};
ghost use Rattle.lsl_image.specs.declared.parts.WorldParts.{WorldParts as AWorld};
ghost use Rattle.lsl_image.specs.Answers.{GivesThat, RefusesWith};
ghost use Rattle.lsl_image.specs.Images.{ObjectFirst, ObjectImage, WorldFirst, WorldImage};
ghost use Rattle.lsl_image.specs.Reading.{IsRefusedBy};

use crate::faults::ImageFault;
use crate::parts::{ObjectParts, Shape, Shapes, WorldParts};
use crate::seal::open;
use crate::world::{read_object_fields, read_world_fields};
use lsl_code::Library;
use lsl_text::Refusal;
use lsl_value::Text;
use std::alloc::Global;

/// The object of an image of version 1 or 2, which was sent from this region and has this shape, or the first fault of
/// the bytes.
///
/// Walks the bytes once, and once more for their digest; takes memory for what is read, in proportion to the bytes that
/// are there.
pub fn read_object(
    alloc: Global,
    bytes: &[u8],
    region: &Text,
    shape: &Shape,
    library: &Library,
) -> Result<ObjectParts, Refusal<ImageFault>>
    ensures found { IfOk result (λ parts. ObjectImage region.now shape.now library.now parts bytes.now) }
    ensures every { (parts : AnObject) → ObjectImage region.now shape.now library.now parts bytes.now
        → GivesThat result parts }
    ensures first { IfErr result (IsRefusedBy (ObjectFirst region.now shape.now library.now bytes.now)) }
    ensures only { (fault : AFault) → ObjectFirst region.now shape.now library.now bytes.now fault
        → RefusesWith result fault }
{
    let fields = open(bytes)?;
    let (parts, _) = read_object_fields(alloc, fields, region, shape, library)?;
    Ok(parts)
}

/// The world of an image of version 1 or 2 with objects of these shapes, or the first fault of the bytes.
///
/// Walks the bytes once, and once more for their digest; takes memory for what is read, in proportion to the bytes that
/// are there.
pub fn read_world(
    alloc: Global,
    bytes: &[u8],
    shapes: &Shapes,
    library: &Library,
) -> Result<WorldParts, Refusal<ImageFault>>
    ensures found { IfOk result (λ parts. WorldImage shapes.now library.now parts bytes.now) }
    ensures every { (parts : AWorld) → WorldImage shapes.now library.now parts bytes.now → GivesThat result parts }
    ensures first { IfErr result (IsRefusedBy (WorldFirst shapes.now library.now bytes.now)) }
    ensures only { (fault : AFault) → WorldFirst shapes.now library.now bytes.now fault
        → RefusesWith result fault }
{
    let fields = open(bytes)?;
    let (parts, _) = read_world_fields(alloc, fields, shapes, library)?;
    Ok(parts)
}
