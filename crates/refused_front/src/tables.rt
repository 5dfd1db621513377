//! Calls of `lsl_table`.

ghost use Rattle.std.specs.Prelude.{◌≡◌};
ghost use Rattle.lsl_table.specs.Calls.{builtin_named, row_of};

use lsl_table::{BuiltinRow, Home, find};
use lsl_value::{BuiltinId, Kind};

/// `find`, `named`.
pub fn call_named(name: &str) -> Option<BuiltinId>
    ensures { result ≡ builtin_named name.now }
{
    find(name)
}

/// `BuiltinId::row`, `result_kind`.
pub fn result_kind(id: BuiltinId) -> Option<Kind>
    ensures { result ≡ (row_of id).result }
{
    id.row().result
}

/// `BuiltinId::row`, `home`.
pub fn home(id: BuiltinId) -> Home
    ensures { result ≡ (row_of id).home }
{
    id.row().home
}
