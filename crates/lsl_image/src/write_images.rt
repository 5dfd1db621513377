//! Images of objects and worlds, written whole in version 2.

ghost use Rattle.std.specs.Prelude.{◌≡◌, ◌++◌, ◌≤◌, ◌<◌, length, drop, IfOk, OnOk};
ghost use Rattle.lsl_value.specs.Text.{IsText};
ghost use Rattle.lsl_bytes.specs.Fields.{text_bytes};
ghost use Rattle.lsl_image.specs.Bytes.{body_bytes, head_bytes, image_bytes, object_image, objects_bytes, world_image};
ghost use Rattle.lsl_image.specs.Fits.{FitsObject, FitsWorld};
ghost use Rattle.lsl_image.specs.Images.{ObjectImage, WorldImage};
ghost use Rattle.lsl_image.specs.Valid.{IsObject, IsWorld, shape_of, shapes_of};

use crate::parts::{ObjectParts, WorldParts};
use crate::seal::{DIGEST_BYTES, digest_of};
use crate::write_body::{write_body, write_objects};
use crate::write_script::write_digest;
use lsl_bytes::{push_text, push_u8, push_u16, push_u64};
use lsl_code::Library;
use lsl_text::NoMemory;
use lsl_value::Text;
use std::alloc::Global;

/// The version of the images that are written.
const VERSION: u16 = 2;

/// The number of bytes before the fields: the letters, the version and the size.
const HEAD_BYTES: usize = 14;

/// The image of an object that is sent from this region. Walks the parts once, and the image once for its digest.
pub fn write_object(
    alloc: Global,
    parts: &ObjectParts,
    region: &Text,
    library: &Library,
) -> Result<Vec<u8>, NoMemory>
    requires { IsObject library.now parts.now }
    ensures image { IfOk result
        (λ image. ObjectImage region.now (shape_of parts.now) library.now parts.now image.items) }
    ensures bytes { IfOk result (λ image. image.items ≡ object_image 2 region.now library.now parts.now) }
{
    let mut out = begun(alloc)?;
    write_object_fields(&mut out, parts, region, library)?;
    sealed(out, b"LSLO")
}

/// The image of a world. Walks the parts once, and the image once for its digest.
pub fn write_world(
    alloc: Global,
    parts: &WorldParts,
    library: &Library,
) -> Result<Vec<u8>, NoMemory>
    requires { IsWorld library.now parts.now }
    ensures image { IfOk result (λ image. WorldImage (shapes_of parts.now) library.now parts.now image.items) }
    ensures bytes { IfOk result (λ image. image.items ≡ world_image 2 library.now parts.now) }
{
    let mut out = begun(alloc)?;
    write_world_fields(&mut out, parts, library)?;
    sealed(out, b"LSLW")
}

// The region that sends the object, and the object.
fn write_object_fields(
    out: &mut Vec<u8>,
    parts: &ObjectParts,
    region: &Text,
    library: &Library,
) -> Result<(), NoMemory>
    requires { IsObject library.now parts.now }
    ensures ok { OnOk result (out.new.items
        ≡ out.old.items ++ (text_bytes region.now ++ body_bytes 2 library.now parts.now)) }
    ensures region { IsText region.now }
    ensures fits { OnOk result (FitsObject library.now parts.now) }
{
    push_text(out, region)?;
    write_body(out, parts, library)
}

// The clock, the count of objects, and the objects.
#[tactic(auto, unfolding(crate::specs::Bytes::objects_bytes))]
fn write_world_fields(
    out: &mut Vec<u8>,
    parts: &WorldParts,
    library: &Library,
) -> Result<(), NoMemory>
    requires { IsWorld library.now parts.now }
    ensures ok { OnOk result (out.new.items ≡ out.old.items ++ objects_bytes 2 library.now parts.now) }
    ensures fits { OnOk result (FitsWorld library.now parts.now) }
{
    push_u64(out, parts.clock)?;
    push_u8(out, parts.objects.len() as u8)?;
    write_objects(out, parts.objects.as_slice(), library)
}

// Reserves for what comes before the fields.
fn begun(alloc: Global) -> Result<Vec<u8>, NoMemory>
    ensures { IfOk result (λ out. length out.items ≡ 14) }
{
    let mut out = Vec::new(alloc);
    out.extend_from_slice(&[0; HEAD_BYTES])?;
    Ok(out)
}

// The image of these fields, which follow the reserved head.
fn sealed(out: Vec<u8>, letters: &[u8; 4]) -> Result<Vec<u8>, NoMemory>
    requires { 14 ≤ length out.items }
    ensures bytes { IfOk result (λ image. image.items ≡ image_bytes letters.now 2 (drop 14 out.items)) }
    ensures small { IfOk result (λ image. length image.items < 18446744073709551616) }
{
    let mut out = out;
    let size = out.len() as u64 + DIGEST_BYTES as u64;
    let head = head_of(*out.allocator(), letters, size)?;
    put_head(&mut out, head.as_slice());
    let digest = digest_of(out.as_slice());
    write_digest(&mut out, &digest)?;
    Ok(out)
}

// What comes before the fields.
#[tactic(auto, unfolding(crate::specs::Bytes::head_bytes))]
fn head_of(alloc: Global, letters: &[u8; 4], size: u64) -> Result<Vec<u8>, NoMemory>
    ensures { IfOk result (λ head. head.items ≡ head_bytes letters.now 2 size) }
{
    let mut head = Vec::new(alloc);
    head.extend_from_slice(letters.as_slice())?;
    push_u16(&mut head, VERSION)?;
    push_u64(&mut head, size)?;
    Ok(head)
}

// Puts this in the place of as many bytes at the front.
fn put_head(out: &mut Vec<u8>, head: &[u8])
    requires { length head.now ≤ length out.old.items }
    ensures { out.new.items ≡ head.now ++ drop (length head.now) out.old.items }
{
    for place in 0..head.len() {
        out[place] = head[place];
    }
}
