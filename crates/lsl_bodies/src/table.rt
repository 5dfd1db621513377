//! The names that no script declares.

ghost use Rattle.std.specs.Prelude.{◌≡◌};
ghost use Rattle.lsl_bodies.specs.Table.{builtin_of, params_of, result_of, event_of, event_params_of, constant_of};
ghost use Rattle.lsl_bodies.specs.Table.{constant_kind_of, is_reserved};

use lsl_table::{BuiltinRow, Kinds};
use lsl_value::{BuiltinId, ConstantId, EventId, Kind};

pub(crate) fn builtin(name: &str) -> Option<BuiltinId>
    ensures { result ≡ builtin_of name.now }
{
    lsl_table::find(name)
}

pub(crate) fn params(id: BuiltinId) -> Kinds
    ensures { result ≡ params_of id }
{
    id.row().params
}

pub(crate) fn result_kind(id: BuiltinId) -> Option<Kind>
    ensures { result ≡ result_of id }
{
    id.row().result
}

pub fn event(name: &str) -> Option<EventId>
    ensures { result ≡ event_of name.now }
{
    lsl_table::event(name)
}

pub fn event_params(id: EventId) -> Kinds
    ensures { result ≡ event_params_of id }
{
    lsl_table::signature(id)
}

pub fn constant(name: &str) -> Option<ConstantId>
    ensures { result ≡ constant_of name.now }
{
    lsl_table::constant(name)
}

pub fn constant_kind(id: ConstantId) -> Kind
    ensures { result ≡ constant_kind_of id }
{
    lsl_table::constant_kind(id)
}

/// Whether a constant, an event or a built-in call has the name.
pub fn is_reserved(name: &str) -> bool
    ensures { result ≡ is_reserved name.now }
{
    constant(name).is_some() || event(name).is_some() || builtin(name).is_some()
}
