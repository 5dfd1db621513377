//! The lines of a command that come from no run.

ghost use Rattle.std.specs.Prelude.{◌≡◌, ◌++◌, codes, decimal, IfOk, OnOk};
ghost use Rattle.hex.specs.Hex.{encode_lower};
ghost use Rattle.lsl_top.specs.Made.{made_line};
ghost use Rattle.lsl_top.specs.Lines.{accepted_line, detail_of, fault_words, image_refusal_of, note_refusal_of, number_of_image, place_words, refusal_of, two_words, world_refusal_of};

use hex::encode;
use itoa::Buffer;
use lsl_build::BuildFault;
use lsl_digest::DigestSink;
use lsl_image::ImageFault;
use lsl_lines::FileFault;
use lsl_notes::CardFault;
use lsl_text::{NoMemory, Span, push_decimal, push_quoted};
use std::alloc::{AllocError, Global};

/// The line of a script that is accepted. Takes memory for the line.
pub fn acceptance(alloc: Global, file: &str) -> Result<Vec<u8>, NoMemory>
    ensures { IfOk result (λ line. line.items ≡ accepted_line file.now) }
{
    let mut out = Vec::new(alloc);
    out.extend_from_slice(b"accepted ")?;
    push_quoted(&mut out, file.as_bytes())?;
    out.push(b'\n')?;
    Ok(out)
}

/// The line of a script that isn't accepted. It takes memory for the line.
pub fn refusal(alloc: Global, file: &str, fault: &BuildFault) -> Result<Vec<u8>, NoMemory>
    ensures { IfOk result (λ line. line.items ≡ refusal_of file.now fault.now) }
{
    let mut out = Vec::new(alloc);
    out.extend_from_slice(b"bad script ")?;
    push_quoted(&mut out, file.as_bytes())?;
    push_place(&mut out, &fault.span, fault.number)?;
    Ok(out)
}

/// The line of a world file with a fault. Takes memory for the line.
pub fn world_refusal(alloc: Global, file: &str, fault: &FileFault) -> Result<Vec<u8>, NoMemory>
    ensures { IfOk result (λ line. line.items ≡ world_refusal_of file.now fault.now) }
{
    let mut out = Vec::new(alloc);
    out.extend_from_slice(b"bad world ")?;
    push_quoted(&mut out, file.as_bytes())?;
    out.extend_from_slice(b" line ")?;
    push_decimal(&mut out, i64::from(fault.line))?;
    push_fault(&mut out, fault.kind.number())?;
    Ok(out)
}

/// The line of a notecard that isn't one. Takes memory for the line.
pub fn note_refusal(alloc: Global, file: &str, fault: &CardFault) -> Result<Vec<u8>, NoMemory>
    ensures { IfOk result (λ line. line.items ≡ note_refusal_of file.now fault.now) }
{
    let mut out = Vec::new(alloc);
    out.extend_from_slice(b"bad note ")?;
    push_quoted(&mut out, file.as_bytes())?;
    out.extend_from_slice(b" line ")?;
    push_decimal(&mut out, i64::from(fault.line()))?;
    push_fault(&mut out, fault.number())?;
    Ok(out)
}

/// The line of a frozen file whose world isn't that of the world file. Takes memory for the line.
pub fn image_refusal(alloc: Global, file: &str, fault: &ImageFault) -> Result<Vec<u8>, NoMemory>
    ensures { IfOk result (λ line. line.items ≡ image_refusal_of file.now fault.now) }
{
    let mut out = Vec::new(alloc);
    out.extend_from_slice(b"bad image ")?;
    push_quoted(&mut out, file.as_bytes())?;
    out.extend_from_slice(b" fault ")?;
    push_decimal(&mut out, i64::from(image_number(fault)))?;
    push_detail(&mut out, fault)?;
    out.push(b'\n')?;
    Ok(out)
}

/// The line of a seed and the report of its world. Takes memory for the line. Out of memory also where the report has
/// more lines than were counted.
pub fn made_line(alloc: Global, number: u32, report: DigestSink) -> Result<Vec<u8>, NoMemory>
    ensures { IfOk result (λ line. line.items ≡ made_line number report) }
{
    let Some(lines) = report.lines() else {
        return Err(AllocError);
    };
    let mut out = Vec::new(alloc);
    out.extend_from_slice(b"made")?;
    push_number(&mut out, u64::from(number))?;
    out.extend_from_slice(b" lines")?;
    push_number(&mut out, lines)?;
    out.extend_from_slice(b" sha256")?;
    push_hex(&mut out, report.digest().as_slice())?;
    out.push(b'\n')?;
    Ok(out)
}

/// The fault's number, as it is printed.
fn image_number(fault: &ImageFault) -> u8
    ensures { result ≡ number_of_image fault.now }
{
    match fault {
        ImageFault::Size { .. } => 40,
        ImageFault::Digest { .. } => 41,
        ImageFault::Version(_) => 42,
        ImageFault::WrongCode { .. } => 43,
        ImageFault::Body(_) => 44,
        ImageFault::NotFrozen => 45,
    }
}

/// Appends what a fault's line says after its number: what was found and what is wanted, or where.
fn push_detail(out: &mut Vec<u8>, fault: &ImageFault) -> Result<(), NoMemory>
    ensures { OnOk result (out.new.items ≡ out.old.items ++ detail_of fault.now) }
{
    match fault {
        ImageFault::Size { found, wanted } => push_sizes(out, *found, *wanted),
        ImageFault::Digest { found, wanted } => push_digests(out, found, wanted),
        ImageFault::Version(version) => push_number(out, u64::from(*version)),
        ImageFault::WrongCode { found, wanted } => push_digests(out, found, wanted),
        ImageFault::Body(place) => push_number(out, *place),
        ImageFault::NotFrozen => Ok(()),
    }
}

fn push_sizes(out: &mut Vec<u8>, found: u64, wanted: u64) -> Result<(), NoMemory>
    ensures { OnOk result (out.new.items ≡ out.old.items ++ two_words (decimal found) (decimal wanted)) }
{
    push_number(out, found)?;
    push_number(out, wanted)
}

fn push_digests(out: &mut Vec<u8>, found: &[u8; 32], wanted: &[u8; 32]) -> Result<(), NoMemory>
    ensures { OnOk result (out.new.items ≡ out.old.items
        ++ two_words (encode_lower found.now) (encode_lower wanted.now)) }
{
    push_hex(out, found.as_slice())?;
    push_hex(out, wanted.as_slice())
}

/// Appends a space, and the bytes in hexadecimal.
fn push_hex(out: &mut Vec<u8>, bytes: &[u8]) -> Result<(), NoMemory>
    ensures { OnOk result (out.new.items ≡ out.old.items ++ (codes " " ++ encode_lower bytes.now)) }
{
    let digits = encode(*out.allocator(), bytes)?;
    out.push(b' ')?;
    out.extend_from_slice(digits.as_bytes())
}

/// Appends a space, and the number in decimal.
fn push_number(out: &mut Vec<u8>, n: u64) -> Result<(), NoMemory>
    ensures { OnOk result (out.new.items ≡ out.old.items ++ (codes " " ++ decimal n)) }
{
    let mut buffer = Buffer::new();
    let digits = buffer.format(n);
    out.push(b' ')?;
    out.extend_from_slice(digits.as_bytes())
}

fn push_place(out: &mut Vec<u8>, span: &Span, number: u8) -> Result<(), NoMemory>
    ensures { OnOk result (out.new.items ≡ out.old.items ++ place_words span.now.line span.now.col number) }
{
    out.push(b' ')?;
    push_decimal(out, i64::from(span.line))?;
    out.push(b':')?;
    push_decimal(out, i64::from(span.col))?;
    push_fault(out, number)
}

/// Ends a line with a fault's number.
fn push_fault(out: &mut Vec<u8>, number: u8) -> Result<(), NoMemory>
    ensures { OnOk result (out.new.items ≡ out.old.items ++ fault_words number) }
{
    out.extend_from_slice(b" fault ")?;
    push_decimal(out, i64::from(number))?;
    out.push(b'\n')?;
    Ok(())
}
