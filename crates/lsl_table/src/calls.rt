//! Built-in calls: one line for each, with its kinds and where it is done.

ghost use Rattle.std.specs.Prelude.{◌≡◌, ◌≤◌, length};
ghost use Rattle.lsl_value.specs.declared.names.BuiltinId.{BuiltinId as Id};
ghost use Rattle.lsl_table.specs.Calls.{builtin_named, name_of, row_of};
ghost use Rattle.lsl_table.specs.Names.{Finds};

use crate::kinds::Kinds;
use crate::rows::Rows;
use lsl_value::{BuiltinId, Kind};

/// Where a call is done, and how.
#[derive(Clone, Copy, PartialEq, Eq, Hash)]
pub enum Home {
    /// by its arguments alone
    Pure,
    /// by the machine: how much the script is charged
    UsedMemory,
    /// by the machine: how much more it may be charged
    FreeMemory,
    /// by the machine: how much it may be charged from now on
    SetLimit,
    /// by the machine: how much it may be charged
    GetLimit,
    /// by the host, which only reads the world
    Query,
    /// by the host, in the mailbox of the script that asks
    Mail,
    /// by the host, which says or sends something, or names a prim
    Act,
    /// by the host, in the store of the object, whose scripts get an event about a change
    Store,
    /// by the host: the script that asks gets the data of a notecard
    Note,
    /// by the host: the script sleeps, and a tick passes after the answer
    Sleep,
    /// by the machine: the handler ends, and the script is reset
    Reset,
}

/// What is known of a call. `result` is none where it gives no value.
#[derive(Drop)]
pub struct Row {
    pub name: &'static str,
    pub params: Kinds,
    pub result: Option<Kind>,
    pub home: Home,
}

/// The table of calls, one row each: `$then!` of what is given in brackets, and of the rows. No call's name, kinds or
/// home appear anywhere else (<https://wiki.secondlife.com/wiki/Category:LSL_Functions>).
#[macro_export]
macro_rules! builtins {
    ($then:ident $($given:tt)*) => {
        $then! {
            [$($given)*]
            Abs "llAbs" Pure (Int) Int;
            StringLength "llStringLength" Pure (Str) Int;
            GetListLength "llGetListLength" Pure (List) Int;
            GetSubString "llGetSubString" Pure (Str, Int, Int) Str;
            List2List "llList2List" Pure (List, Int, Int) List;
            DeleteSubString "llDeleteSubString" Pure (Str, Int, Int) Str;
            DeleteSubList "llDeleteSubList" Pure (List, Int, Int) List;
            InsertString "llInsertString" Pure (Str, Int, Str) Str;
            ListInsertList "llListInsertList" Pure (List, List, Int) List;
            ListReplaceList "llListReplaceList" Pure (List, List, Int, Int) List;
            SubStringIndex "llSubStringIndex" Pure (Str, Str) Int;
            ListFindList "llListFindList" Pure (List, List) Int;
            StringTrim "llStringTrim" Pure (Str, Int) Str;
            List2Integer "llList2Integer" Pure (List, Int) Int;
            List2String "llList2String" Pure (List, Int) Str;
            List2Key "llList2Key" Pure (List, Int) Key;
            GetListEntryType "llGetListEntryType" Pure (List, Int) Int;
            DumpList2String "llDumpList2String" Pure (List, Str) Str;
            List2Csv "llList2CSV" Pure (List) Str;
            Csv2List "llCSV2List" Pure (Str) List;
            ParseString2List "llParseString2List" Pure (Str, List, List) List;
            ParseStringKeepNulls "llParseStringKeepNulls" Pure (Str, List, List) List;
            GetUsedMemory "llGetUsedMemory" UsedMemory () Int;
            GetFreeMemory "llGetFreeMemory" FreeMemory () Int;
            SetMemoryLimit "llSetMemoryLimit" SetLimit (Int) Int;
            GetMemoryLimit "llGetMemoryLimit" GetLimit () Int;
            Say "llSay" Act (Int, Str);
            Whisper "llWhisper" Act (Int, Str);
            Shout "llShout" Act (Int, Str);
            RegionSay "llRegionSay" Act (Int, Str);
            OwnerSay "llOwnerSay" Act (Str);
            Listen "llListen" Mail (Int, Str, Key, Str) Int;
            ListenRemove "llListenRemove" Mail (Int);
            ListenControl "llListenControl" Mail (Int, Int);
            SetTimerEvent "llSetTimerEvent" Mail (Int);
            Sleep "llSleep" Sleep (Int);
            ResetScript "llResetScript" Reset ();
            MessageLinked "llMessageLinked" Act (Int, Int, Str, Key);
            GetOwner "llGetOwner" Query () Key;
            GetKey "llGetKey" Query () Key;
            GetLinkKey "llGetLinkKey" Query (Int) Key;
            GetLinkName "llGetLinkName" Query (Int) Str;
            GetLinkNumber "llGetLinkNumber" Query () Int;
            GetNumberOfPrims "llGetNumberOfPrims" Query () Int;
            GetObjectName "llGetObjectName" Query () Str;
            SetObjectName "llSetObjectName" Act (Str);
            GetScriptName "llGetScriptName" Query () Str;
            GetRegionName "llGetRegionName" Query () Str;
            GetUnixTime "llGetUnixTime" Query () Int;
            DetectedKey "llDetectedKey" Query (Int) Key;
            DetectedName "llDetectedName" Query (Int) Str;
            DetectedLinkNumber "llDetectedLinkNumber" Query (Int) Int;
            LinksetDataWrite "llLinksetDataWrite" Store (Str, Str) Int;
            LinksetDataDelete "llLinksetDataDelete" Store (Str) Int;
            LinksetDataReset "llLinksetDataReset" Store ();
            LinksetDataRead "llLinksetDataRead" Query (Str) Str;
            LinksetDataCountKeys "llLinksetDataCountKeys" Query () Int;
            LinksetDataAvailable "llLinksetDataAvailable" Query () Int;
            LinksetDataListKeys "llLinksetDataListKeys" Query (Int, Int) List;
            GetNotecardLine "llGetNotecardLine" Note (Str, Int) Key;
            GetNumberOfNotecardLines "llGetNumberOfNotecardLines" Note (Str) Key;
        }
    };
}

macro_rules! result {
    () => { None };
    ($kind:ident) => { Some(Kind::$kind) };
}

macro_rules! match_name {
    ([$id:ident] $($variant:ident $name:literal $home:ident ($($kind:ident),*) $($result:ident)?;)*) => {
        match $id {
            $(BuiltinId::$variant => $name,)*
        }
    };
}

macro_rules! match_params {
    ([$id:ident] $($variant:ident $name:literal $home:ident ($($kind:ident),*) $($result:ident)?;)*) => {
        match $id {
            $(BuiltinId::$variant => &[$(Kind::$kind),*],)*
        }
    };
}

macro_rules! match_result {
    ([$id:ident] $($variant:ident $name:literal $home:ident ($($kind:ident),*) $($result:ident)?;)*) => {
        match $id {
            $(BuiltinId::$variant => result!($($result)?),)*
        }
    };
}

macro_rules! match_home {
    ([$id:ident] $($variant:ident $name:literal $home:ident ($($kind:ident),*) $($result:ident)?;)*) => {
        match $id {
            $(BuiltinId::$variant => Home::$home,)*
        }
    };
}

macro_rules! ids {
    ([] $($variant:ident $name:literal $home:ident ($($kind:ident),*) $($result:ident)?;)*) => {
        [$(BuiltinId::$variant),*]
    };
}

/// The row of a call.
pub trait BuiltinRow {
    ghost id: { Self → Id };

    /// The row. Takes no memory.
    fn row(self) -> Row
        ensures name { result.name.now ≡ name_of (id self) }
        ensures params { result.params ≡ (row_of (id self)).params }
        ensures result_kind { result.result ≡ (row_of (id self)).result }
        ensures home { result.home ≡ (row_of (id self)).home };
}

impl BuiltinRow for BuiltinId {
    ghost id = { λ id. id };

    #[inline(always)]
    fn row(self) -> Row
        ensures name { result.name.now ≡ name_of self }
        ensures params { result.params ≡ (row_of self).params }
        ensures result_kind { result.result ≡ (row_of self).result }
        ensures home { result.home ≡ (row_of self).home }
    {
        Row {
            name: call_name(self),
            params: Kinds::new(call_params(self)),
            result: call_result(self),
            home: call_home(self),
        }
    }
}

#[inline(always)]
fn call_name(id: BuiltinId) -> &'static str
    ensures { result.now ≡ name_of id }
{
    builtins!(match_name id)
}

#[inline(always)]
fn call_params(id: BuiltinId) -> &'static [Kind]
    ensures value { result.now ≡ (row_of id).params }
    ensures within { length result.now ≤ 4 }
{
    builtins!(match_params id)
}

#[inline(always)]
fn call_result(id: BuiltinId) -> Option<Kind>
    ensures { result ≡ (row_of id).result }
{
    builtins!(match_result id)
}

#[inline(always)]
fn call_home(id: BuiltinId) -> Home
    ensures { result ≡ (row_of id).home }
{
    builtins!(match_home id)
}

/// The calls by their names' hashes, as computed by `tools/name_slots.py`.
static CALLS: Rows<256> = Rows {
    base: 82,
    slots: [
        255, 255, 255, 57, 59, 255, 255, 255, 255, 255, 255, 38, 15, 255, 255, 255, 255, 255, 255,
        11, 49, 255, 26, 255, 255, 255, 255, 27, 21, 255, 34, 255, 255, 255, 255, 255, 31, 14, 45,
        255, 1, 255, 255, 255, 255, 37, 255, 255, 255, 255, 255, 33, 255, 255, 44, 255, 255, 255,
        255, 255, 8, 255, 255, 255, 3, 60, 255, 20, 13, 40, 255, 47, 255, 255, 56, 255, 255, 255,
        255, 255, 255, 255, 255, 255, 255, 6, 255, 255, 255, 50, 255, 255, 54, 255, 58, 16, 255,
        46, 255, 255, 255, 52, 255, 255, 255, 9, 255, 12, 36, 255, 51, 255, 255, 255, 41, 255, 255,
        255, 255, 255, 30, 255, 255, 255, 48, 255, 255, 255, 255, 255, 255, 255, 255, 255, 255,
        255, 255, 255, 255, 0, 255, 255, 255, 32, 255, 255, 255, 255, 255, 255, 24, 29, 255, 25,
        255, 39, 255, 255, 255, 255, 255, 42, 255, 255, 255, 255, 255, 22, 5, 255, 255, 255, 10,
        17, 255, 255, 255, 255, 255, 255, 255, 28, 255, 255, 2, 255, 255, 255, 255, 255, 255, 255,
        255, 255, 255, 255, 43, 255, 255, 255, 255, 255, 255, 255, 55, 255, 255, 255, 255, 255,
        255, 255, 255, 255, 255, 255, 255, 255, 23, 53, 255, 19, 255, 255, 255, 255, 255, 7, 255,
        255, 255, 255, 255, 35, 4, 255, 255, 255, 255, 255, 255, 255, 255, 255, 255, 255, 18, 255,
        255, 255, 255, 255, 255, 255, 255, 255,
    ],
};

/// The calls in the order of their rows.
static BUILTINS: [BuiltinId; 61] = builtins!(ids);

/// The call of this name, or none. Takes no memory, and compares one name.
pub fn find(name: &str) -> Option<BuiltinId>
    ensures found { Finds name_of name.now result }
    ensures named { result ≡ builtin_named name.now }
{
    let id = *BUILTINS.get(usize::from(CALLS.row(name)))?;
    if id.row().name == name {
        Some(id)
    } else {
        None
    }
}
