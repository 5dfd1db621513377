//! Constants: names and values.

ghost use Rattle.std.specs.Prelude.{◌≡◌};
ghost use Rattle.lsl_value.specs.Values.{kind_of};
ghost use Rattle.lsl_table.specs.Constants.{constant_named, constant_name_of, constant_value_of, value_of_constant};
ghost use Rattle.lsl_table.specs.Names.{Finds};

use crate::rows::Rows;
use lsl_value::{ConstantId, Kind};

/// The value of a constant.
#[derive(Clone, Copy, PartialEq, Eq)]
pub enum ConstantValue {
    Int(i32),
    Str(&'static str),
}

/// The table of constants, one row each (<https://wiki.secondlife.com/wiki/Category:LSL_Constants>): `$then!`
/// of what is given in brackets, and of the rows.
macro_rules! constants {
    ($then:ident $($given:tt)*) => {
        $then! {
            [$($given)*]
            True "TRUE" Int(1);
            False "FALSE" Int(0);
            NullKey "NULL_KEY" Str("00000000-0000-0000-0000-000000000000");
            Eof "EOF" Str("\n\n\n");
            PublicChannel "PUBLIC_CHANNEL" Int(0);
            DebugChannel "DEBUG_CHANNEL" Int(2147483647);
            LinkRoot "LINK_ROOT" Int(1);
            LinkSet "LINK_SET" Int(-1);
            LinkAllOthers "LINK_ALL_OTHERS" Int(-2);
            LinkAllChildren "LINK_ALL_CHILDREN" Int(-3);
            LinkThis "LINK_THIS" Int(-4);
            TypeInvalid "TYPE_INVALID" Int(0);
            TypeInteger "TYPE_INTEGER" Int(1);
            TypeString "TYPE_STRING" Int(3);
            TypeKey "TYPE_KEY" Int(4);
            StringTrimHead "STRING_TRIM_HEAD" Int(1);
            StringTrimTail "STRING_TRIM_TAIL" Int(2);
            StringTrim "STRING_TRIM" Int(3);
            ChangedLink "CHANGED_LINK" Int(32);
            ChangedOwner "CHANGED_OWNER" Int(128);
            ChangedRegion "CHANGED_REGION" Int(256);
            LinksetDataOk "LINKSETDATA_OK" Int(0);
            LinksetDataNoMemory "LINKSETDATA_EMEMORY" Int(1);
            LinksetDataNoKey "LINKSETDATA_ENOKEY" Int(2);
            LinksetDataProtected "LINKSETDATA_EPROTECTED" Int(3);
            LinksetDataNotFound "LINKSETDATA_NOTFOUND" Int(4);
            LinksetDataNoUpdate "LINKSETDATA_NOUPDATE" Int(5);
            LinksetDataReset "LINKSETDATA_RESET" Int(0);
            LinksetDataUpdate "LINKSETDATA_UPDATE" Int(1);
            LinksetDataDelete "LINKSETDATA_DELETE" Int(2);
        }
    };
}

macro_rules! ids {
    ([] $($variant:ident $name:literal $kind:ident($value:expr);)*) => {
        [$(ConstantId::$variant),*]
    };
}

macro_rules! match_name {
    ([$id:ident] $($variant:ident $name:literal $kind:ident($value:expr);)*) => {
        match $id {
            $(ConstantId::$variant => $name,)*
        }
    };
}

macro_rules! match_value {
    ([$id:ident] $($variant:ident $name:literal $kind:ident($value:expr);)*) => {
        match $id {
            $(ConstantId::$variant => ConstantValue::$kind($value),)*
        }
    };
}

/// The constants by their names' hashes, as computed by `tools/name_slots.py`.
static NAMES: Rows<64> = Rows {
    base: 6672,
    slots: [
        255, 15, 13, 255, 11, 27, 255, 255, 9, 255, 16, 255, 1, 255, 29, 14, 255, 10, 255, 255, 12,
        255, 26, 255, 21, 4, 255, 255, 255, 255, 255, 5, 20, 255, 255, 19, 24, 255, 255, 255, 255,
        7, 23, 255, 255, 28, 255, 2, 0, 255, 25, 255, 6, 255, 22, 18, 17, 255, 8, 255, 255, 255,
        255, 3,
    ],
};

/// The constants in the order of their rows.
static CONSTANTS: [ConstantId; 30] = constants!(ids);

/// The constant of this name, or none. Takes no memory, and compares one name.
pub fn constant(name: &str) -> Option<ConstantId>
    ensures found { Finds constant_name_of name.now result }
    ensures named { result ≡ constant_named name.now }
{
    let id = *CONSTANTS.get(usize::from(NAMES.row(name)))?;
    if constant_name(id) == name {
        Some(id)
    } else {
        None
    }
}

/// The constant's name. Takes no memory.
pub fn constant_name(id: ConstantId) -> &'static str
    ensures { result.now ≡ constant_name_of id }
{
    constants!(match_name id)
}

/// The constant's value. Takes no memory.
pub fn constant_value(id: ConstantId) -> ConstantValue
    ensures { value_of_constant result ≡ constant_value_of id }
{
    constants!(match_value id)
}

/// The kind of the constant's value. Takes no memory.
pub fn constant_kind(id: ConstantId) -> Kind
    ensures { result ≡ kind_of (constant_value_of id) }
{
    match constant_value(id) {
        ConstantValue::Int(_) => Kind::Int,
        ConstantValue::Str(_) => Kind::Str,
    }
}
