//! Numbers, big-endian, and bytes as they are.

ghost use Rattle.std.specs.Prelude.{◌≡◌, ◌++◌, length, OnOk, OnErr};
ghost use Rattle.lsl_bytes.specs.Fields.{FitsI32, FitsU8, FitsU16, FitsU32, FitsU64, i32_bytes, u8_bytes, u16_bytes, u32_bytes, u64_bytes};
ghost use Rattle.lsl_bytes.specs.Places.{Takes};

use lsl_text::NoMemory;

/// Appends a byte.
#[tactic(auto, unfolding(crate::specs::Fields::u8_bytes))]
pub fn push_u8(out: &mut Vec<u8>, n: u8) -> Result<(), NoMemory>
    ensures ok { OnOk result (out.new.items ≡ out.old.items ++ u8_bytes n) }
    ensures unchanged { OnErr result (out.new.items ≡ out.old.items) }
{
    out.extend_from_slice(&[n])
}

/// Appends two bytes.
#[tactic(auto, unfolding(crate::specs::Fields::u16_bytes))]
pub fn push_u16(out: &mut Vec<u8>, n: u16) -> Result<(), NoMemory>
    ensures ok { OnOk result (out.new.items ≡ out.old.items ++ u16_bytes n) }
    ensures unchanged { OnErr result (out.new.items ≡ out.old.items) }
{
    out.extend_from_slice(&n.to_be_bytes())
}

/// Appends four bytes.
#[tactic(auto, unfolding(crate::specs::Fields::u32_bytes))]
pub fn push_u32(out: &mut Vec<u8>, n: u32) -> Result<(), NoMemory>
    ensures ok { OnOk result (out.new.items ≡ out.old.items ++ u32_bytes n) }
    ensures unchanged { OnErr result (out.new.items ≡ out.old.items) }
{
    out.extend_from_slice(&n.to_be_bytes())
}

/// Appends eight bytes.
#[tactic(auto, unfolding(crate::specs::Fields::u64_bytes))]
pub fn push_u64(out: &mut Vec<u8>, n: u64) -> Result<(), NoMemory>
    ensures ok { OnOk result (out.new.items ≡ out.old.items ++ u64_bytes n) }
    ensures unchanged { OnErr result (out.new.items ≡ out.old.items) }
{
    out.extend_from_slice(&n.to_be_bytes())
}

/// Appends four bytes, a negative number as its two's complement.
#[tactic(auto, unfolding(crate::specs::Fields::i32_bytes))]
pub fn push_i32(out: &mut Vec<u8>, n: i32) -> Result<(), NoMemory>
    ensures ok { OnOk result (out.new.items ≡ out.old.items ++ i32_bytes n) }
    ensures unchanged { OnErr result (out.new.items ≡ out.old.items) }
{
    push_u32(out, n.cast_unsigned())
}

/// Takes `count` bytes as they are. Takes no memory.
#[inline(always)]
pub fn take_array<const N: usize>(bytes: &[u8], place: usize) -> Option<([u8; N], usize)>
    ensures { Takes (λ part. part) (λ part. length part ≡ N) bytes.now place result }
{
    let field = bytes.get(place..)?.first_chunk()?;
    Some((*field, place + N))
}

/// Takes a byte. Takes no memory.
#[inline(always)]
pub fn take_u8(bytes: &[u8], place: usize) -> Option<(u8, usize)>
    ensures { Takes u8_bytes FitsU8 bytes.now place result }
{
    let (field, next) = take_array(bytes, place)?;
    Some((u8::from_be_bytes(field), next))
}

/// Takes two bytes. Takes no memory.
#[inline(always)]
pub fn take_u16(bytes: &[u8], place: usize) -> Option<(u16, usize)>
    ensures { Takes u16_bytes FitsU16 bytes.now place result }
{
    let (field, next) = take_array(bytes, place)?;
    Some((u16::from_be_bytes(field), next))
}

/// Takes four bytes. Takes no memory.
#[inline(always)]
pub fn take_u32(bytes: &[u8], place: usize) -> Option<(u32, usize)>
    ensures { Takes u32_bytes FitsU32 bytes.now place result }
{
    let (field, next) = take_array(bytes, place)?;
    Some((u32::from_be_bytes(field), next))
}

/// Takes eight bytes. Takes no memory.
pub fn take_u64(bytes: &[u8], place: usize) -> Option<(u64, usize)>
    ensures { Takes u64_bytes FitsU64 bytes.now place result }
{
    let (field, next) = take_array(bytes, place)?;
    Some((u64::from_be_bytes(field), next))
}

/// Takes four bytes, a negative number as its two's complement. Takes no memory.
#[inline(always)]
pub fn take_i32(bytes: &[u8], place: usize) -> Option<(i32, usize)>
    ensures { Takes i32_bytes FitsI32 bytes.now place result }
{
    let (n, next) = take_u32(bytes, place)?;
    Some((n.cast_signed(), next))
}
