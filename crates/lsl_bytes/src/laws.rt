//! Laws of the fields. Each law is a function whose clause is the law; it does nothing.

ghost use Rattle.lsl_value.specs.Text.{IsText};
ghost use Rattle.lsl_bytes.specs.Fields.{FitsI32, FitsU8, FitsU16, FitsU32, FitsU64, IsValue, i32_bytes, text_bytes, u8_bytes, u16_bytes, u32_bytes, u64_bytes, value_bytes};
ghost use Rattle.lsl_bytes.specs.Laws.{IsPrefixFree};

/// The bytes of a field are those of one value, whatever follows them.
pub fn bytes_are_of_one_value()
    ensures u8 { IsPrefixFree u8_bytes FitsU8 }
    ensures u16 { IsPrefixFree u16_bytes FitsU16 }
    ensures u32 { IsPrefixFree u32_bytes FitsU32 }
    ensures u64 { IsPrefixFree u64_bytes FitsU64 }
    ensures i32 { IsPrefixFree i32_bytes FitsI32 }
    ensures text { IsPrefixFree text_bytes IsText }
    ensures value { IsPrefixFree value_bytes IsValue }
{}
