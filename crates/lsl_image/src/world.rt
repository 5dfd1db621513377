//! The fields of images: of an object's, and of a world's.

ghost use Rattle.std.specs.Prelude.{◌==◌, codes, length, nat_le};
ghost use Rattle.lsl_image.specs.Layout.{U64, U8, each, field_that};
ghost use Rattle.lsl_image.specs.Object.{object};
ghost use Rattle.lsl_image.specs.Reading.{Reads};
ghost use Rattle.lsl_image.specs.World.{most_clock, placed, world};

use crate::faults::wrong;
use crate::fields::{Read, read_text, read_u8, read_u64};
use crate::head::{read_end, read_head, read_sender};
use crate::object::read_body;
use crate::parts::{ObjectParts, Placed, Shape, Shapes, WorldParts};
use lsl_code::{Library, Sequence};
use lsl_value::Text;
use std::alloc::Global;

/// The greatest reading of the clock, in milliseconds.
const MOST_CLOCK: u64 = 2_147_483_647_999;

/// The fields of an object's image, where the object is in this region.
pub fn read_object_fields(
    alloc: Global,
    fields: &[u8],
    region: &Text,
    shape: &Shape,
    library: &Library,
) -> Read<ObjectParts>
    ensures { Reads fields.now (object region.now shape.now library.now (length fields.now)) 0 result }
{
    let (version, next) = read_head(fields, b"LSLO")?;
    let (_from, next) = read_sender(alloc, fields, next, version, region)?;
    let (parts, next) = read_body(alloc, fields, next, version, shape, library)?;
    let (_last, next) = read_end(fields, next)?;
    Ok((parts, next))
}

/// The fields of a world's image.
pub fn read_world_fields(
    alloc: Global,
    fields: &[u8],
    shapes: &Shapes,
    library: &Library,
) -> Read<WorldParts>
    ensures { Reads fields.now (world shapes.now library.now (length fields.now)) 0 result }
{
    let (version, next) = read_head(fields, b"LSLW")?;
    let (clock, next) = read_clock(fields, next)?;
    let (_count, next) = read_objects_count(fields, next, shapes)?;
    let (objects, next) = read_objects(alloc, fields, next, version, shapes.as_slice(), library)?;
    let (_last, next) = read_end(fields, next)?;
    Ok((WorldParts { clock, objects }, next))
}

// The clock, within its limit.
#[tactic(auto, unfolding(crate::specs::Layout::field, crate::specs::Layout::field_that))]
fn read_clock(bytes: &[u8], place: usize) -> Read<u64>
    ensures { Reads bytes.now (field_that U64 (λ n. nat_le n most_clock)) place result }
{
    let (clock, next) = read_u64(bytes, place)?;
    if clock > MOST_CLOCK {
        return Err(wrong(place));
    }
    Ok((clock, next))
}

// How many objects there are, as the shapes say.
#[tactic(auto, unfolding(crate::specs::Layout::field, crate::specs::Layout::field_that))]
fn read_objects_count(bytes: &[u8], place: usize, shapes: &Shapes) -> Read<u8>
    ensures { Reads bytes.now (field_that U8 (λ n. n == length shapes.now)) place result }
{
    let (found, next) = read_u8(bytes, place)?;
    if usize::from(found) != shapes.len() {
        return Err(wrong(place));
    }
    Ok((found, next))
}

// An object of each of these shapes, with its region.
fn read_objects(
    alloc: Global,
    bytes: &[u8],
    place: usize,
    version: u16,
    shapes: &[Shape],
    library: &Library,
) -> Read<Sequence<Placed>>
    ensures { Reads bytes.now (each (placed version library.now) shapes.now) place result }
{
    let mut objects = Sequence::new(alloc);
    let mut next = place;
    for shape in shapes {
        let (object, behind) = read_placed(alloc, bytes, next, version, shape, library)?;
        objects.push(object)?;
        next = behind;
    }
    Ok((objects, next))
}

// An object of this shape, with its region.
fn read_placed(
    alloc: Global,
    bytes: &[u8],
    place: usize,
    version: u16,
    shape: &Shape,
    library: &Library,
) -> Read<Placed>
    ensures { Reads bytes.now (placed version library.now shape.now) place result }
{
    let (region, next) = read_text(alloc, bytes, place)?;
    let (object, next) = read_body(alloc, bytes, next, version, shape, library)?;
    Ok((Placed { region, object }, next))
}
