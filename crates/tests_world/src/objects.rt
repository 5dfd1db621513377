//! An object's image by itself, of which no line prints more than that it is refused: its letters, its version, its
//! region, its key and its script's digest, and each damaged or short one.

use crate::events::text;
use crate::hosting::unit_of;
use lsl_code::{Library, Sequence};
use lsl_image::{ImageFault, ObjectParts, Shape, read_object};
use lsl_text::{NoMemory, Refusal};
use std::alloc::{AllocError, Global};
use std::process::Abort;
use std::test::Fail;

/// A script within two calls, in version 1: 227 bytes.
const FIRST: &str = "\
4c534c4f000100000000000000e3000000000000000000000000000000010100000003426f780001ea2258a4659e8d1b6640\
4784bd1bb3bb59681a0be2144db850a3926e1e0ff71f00000000000000010000000000000000000000000000000000000000\
0001030100000001010000002430303030303030302d303030302d303030302d303030302d30303030303030303030616100\
000003416e6e00000000000200000001010000000401000000020100000001000200020100000001010000000a5252e9a1a2\
5bb1fd78977eb5c9c6aeed3d90fe87359a43eef58aea51142d3933";

/// The same in version 2, sent from the region `A`: 238 bytes.
const SECOND: &str = "\
4c534c4f000200000000000000ee0000000141000000000000000000000000000000010100000003426f780001ea2258a465\
9e8d1b66404784bd1bb3bb59681a0be2144db850a3926e1e0ff71f0000000000000001000000000000000000000000000000\
0000000000000001000001030100000001010000002430303030303030302d303030302d303030302d303030302d30303030\
303030303030616100000003416e6e0000000000020000000101000000040100000002010000000100020002010000000101\
0000000a00001047ac81b702f3f0510de3e4abc811c3cd01dcb738708fbb5af4825872781f65";

/// The script: two functions, one of them called while a value waits.
const CALLS: &str =
    "integer f(integer n) { integer i; integer s; for (i = 0; i < n; ++i) s += i; return s; } \
integer g(integer n) { return n * 10; } \
default { touch_start(integer n) { llOwnerSay((string)(f(4) + g(1))); } }";

/// An image, `other` for `first` where another object is wanted; a place, the digits that are put there, and the
/// digest that is right then. The place of the fault, or another fault, or that the image is read.
const CHANGES: &str = r"first -> read
second -> read
other -> 14
first 0 4d 13713c880eba0658fbd1e4d71597948fd9771d3b209d20d3a9698084183880d4 -> 0
second 0 4d d11dcfcd1ab6be1d84e2d1275ed7651f8629ce4d329cb9f437dc241e19f04ac7 -> 0
first 4 0002 e4b5636ecf89f5e7f6ef5af8f03f2bff75413c8a4fa371a8d2c7da5e51ecb472 -> 14
second 4 0001 990ee5e4d2ad4ed9fee63711b63e1d1ea067061b8cfd47e12a99b949de69c775 -> 14
second 18 42 1feb972196499842a335c4f9476243d15cae95f6064944812ddd42df1d635546 -> 14
first 4 0003 d60928086286d65409ac26e3f210d2aeb5edb52b6f3aeb1c8761553436a522c5 -> version=3
first 4 0000 1b406072bcc901097aaa9bd6639edb80abd2b26bfb45fc9b3dd5d8606050ec97 -> version=0
first 40 eb 280594368af8b2f593aad7182b89c01a750e8af10e7668fc386064081e9274e8 -> code=235,234";

/// The value of a hexadecimal digit.
fn digit(byte: u8) -> Option<u8> {
    match byte {
        b'0'..=b'9' => Some(byte - b'0'),
        b'a'..=b'f' => Some(byte - b'a' + 10),
        _ => None,
    }
}

/// The bytes of hexadecimal digits. Other characters are skipped.
pub(crate) fn unhex(alloc: Global, digits: &str) -> Result<Vec<u8>, NoMemory> {
    let mut bytes = Vec::new(alloc);
    let mut first = None;
    for byte in digits.bytes() {
        if let Some(value) = digit(byte) {
            match first {
                None => first = Some(value),
                Some(high) => {
                    bytes.push(high << 4 | value)?;
                    first = None;
                }
            }
        }
    }
    Ok(bytes)
}

/// The image of this name.
fn image(alloc: Global, name: &str) -> Result<Vec<u8>, NoMemory> {
    unhex(alloc, if name == "second" { SECOND } else { FIRST })
}

/// The script's code.
fn library(rt: &impl Abort, alloc: Global) -> Result<Library, NoMemory> {
    let mut library = Library::new(alloc);
    library.add(unit_of(rt, alloc, CALLS))?;
    Ok(library)
}

/// The object that is wanted: one prim, with that script.
fn wanted(alloc: Global, name: &str) -> Result<Shape, NoMemory> {
    let mut units = Sequence::new(alloc);
    units.push(0)?;
    let key = match name {
        "other" => "00000000-0000-0000-0000-000000000002",
        _ => "00000000-0000-0000-0000-000000000001",
    };
    Ok(Shape {
        key: text(alloc, key)?,
        prims: 1,
        units,
    })
}

/// The fault of an image in the region `A`, or that it is read.
fn told(alloc: Global, library: &Library, name: &str, bytes: &[u8]) -> Result<String, NoMemory> {
    let region = text(alloc, "A")?;
    let shape = wanted(alloc, name)?;
    answer_told(alloc, read_object(alloc, bytes, &region, &shape, library))
}

fn answer_told(
    alloc: Global,
    answer: Result<ObjectParts, Refusal<ImageFault>>,
) -> Result<String, NoMemory> {
    match answer {
        Ok(_) => String::from_str(alloc, "read"),
        Err(Refusal::Fault(fault)) => fault_told(alloc, fault),
        Err(Refusal::NoMemory) => Err(AllocError),
    }
}

fn fault_told(alloc: Global, fault: ImageFault) -> Result<String, NoMemory> {
    match fault {
        ImageFault::Body(place) => format!(in alloc; "{place}"),
        ImageFault::Version(version) => format!(in alloc; "version={version}"),
        ImageFault::WrongCode { found, wanted } => format!(in alloc;
            "code={},{}",
            found[0], wanted[0]
        ),
        ImageFault::Size { found, wanted } => format!(in alloc; "size={found},{wanted}"),
        ImageFault::Digest { .. } => String::from_str(alloc, "digest"),
        ImageFault::NotFrozen => String::from_str(alloc, "not frozen"),
    }
}

/// Other bytes from this place on.
fn put(bytes: &mut Vec<u8>, place: usize, others: &[u8]) {
    for (byte, other) in bytes.iter_mut().skip(place).zip(others.iter()) {
        *byte = *other;
    }
}

/// The image of this name with a change: a place, the digits that are put there, and those of the last 32 bytes.
fn changed(alloc: Global, name: &str, change: &str) -> Result<Vec<u8>, NoMemory> {
    let mut bytes = image(alloc, name)?;
    if let Some((place, rest)) = change.split_once(' ') {
        let (digits, digest) = rest.split_once(' ').unwrap_or((rest, ""));
        let place = place.parse::<usize>().unwrap_or(0);
        put(&mut bytes, place, unhex(alloc, digits)?.as_slice());
        let end = bytes.len().saturating_sub(32);
        put(&mut bytes, end, unhex(alloc, digest)?.as_slice());
    }
    Ok(bytes)
}

fn change_told(alloc: Global, library: &Library, asked: &str) -> Result<String, NoMemory> {
    let (name, change) = asked.split_once(' ').unwrap_or((asked, ""));
    let bytes = changed(alloc, name, change)?;
    told(alloc, library, name, bytes.as_slice())
}

#[test]
fn changed_images(rt: HostRuntime) -> Result<(), Fail> {
    let library = library(&rt, rt.alloc())?;
    for line in CHANGES.split('\n') {
        let (asked, want) = line.split_once(" -> ").ok_or("an answer")?;
        let said = change_told(rt.alloc(), &library, asked)?;
        assert!(rt; said.as_str() == want, "{line}, and not: {said}");
    }
    Ok(())
}

/// The result for an image with the byte at this place raised by one.
fn raised(alloc: Global, library: &Library, name: &str, place: usize) -> Result<String, NoMemory> {
    let mut bytes = image(alloc, name)?;
    if let Some(byte) = bytes.get_mut(place) {
        *byte = byte.wrapping_add(1);
    }
    told(alloc, library, name, bytes.as_slice())
}

/// Whether each byte of an image, raised by one, is noticed: those of the size as such.
fn raised_bytes(
    rt: &impl Abort,
    alloc: Global,
    library: &Library,
    name: &str,
    size: usize,
) -> Result<(), NoMemory> {
    for place in 0..size {
        let want = if place >= 6 && place < 14 {
            "size"
        } else {
            "digest"
        };
        let said = raised(alloc, library, name, place)?;
        assert!(rt; said.as_str().starts_with(want), "{name} {place}: {said}");
    }
    Ok(())
}

/// Too few bytes for an image, or not as many as it names.
fn beginnings(
    rt: &impl Abort,
    alloc: Global,
    library: &Library,
    name: &str,
    size: usize,
) -> Result<(), NoMemory> {
    let bytes = image(alloc, name)?;
    for count in 0..size {
        let wanted = if count < 46 { 46 } else { size };
        let want = format!(in alloc; "size={count},{wanted}")?;
        let said = told(alloc, library, name, bytes.get(..count).unwrap_or(&[]))?;
        assert!(rt; said == want, "{name}: {want}, and not: {said}");
    }
    Ok(())
}

#[test]
fn damaged_images(rt: HostRuntime) -> Result<(), Fail> {
    let alloc = rt.alloc();
    let library = library(&rt, alloc)?;
    raised_bytes(&rt, alloc, &library, "first", 227)?;
    raised_bytes(&rt, alloc, &library, "second", 238)?;
    beginnings(&rt, alloc, &library, "first", 227)?;
    beginnings(&rt, alloc, &library, "second", 238)?;
    Ok(())
}
