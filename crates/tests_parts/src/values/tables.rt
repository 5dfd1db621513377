//! That the tables are the language's, and that each name leads to its row. The rows were typed independently of the
//! program.

use crate::shown::Shown;
use crate::values::words::letter;
use lsl_table::{
    BuiltinId, BuiltinRow, ConstantValue, Home, builtins, constant, constant_kind, constant_name,
    constant_value, event, event_name, find, laws, signature,
};
use lsl_value::Kind;
use std::alloc::{AllocError, Global};

pub fn tell(told: &mut Shown, word: &str, name: &str) -> Result<(), AllocError> {
    laws::names_differ();
    laws::names_are_found();
    let changed = changed(told.alloc(), name)?;
    let other = match word {
        "builtin" => tell_builtin(told, name, changed.as_str()),
        "event" => tell_event(told, name, changed.as_str()),
        _ => tell_constant(told, name, changed.as_str()),
    };
    if other {
        told.add(" changed");
    }
    Ok(())
}

/// The name with another last letter.
fn changed(alloc: Global, name: &str) -> Result<String, AllocError> {
    let mut bytes = name.as_bytes().to_vec(alloc)?;
    if let Some(last) = bytes.last_mut() {
        *last ^= 1;
    }
    Ok(String::from_utf8(bytes).unwrap_or(String::new(alloc)))
}

/// A letter for each kind.
fn tell_kinds(told: &mut Shown, kinds: &[Kind]) {
    for kind in kinds {
        told.add(letter(*kind));
    }
}

fn home_letter(home: Home) -> &'static str {
    match home {
        Home::Pure => "P",
        Home::UsedMemory | Home::FreeMemory | Home::SetLimit | Home::GetLimit => "O",
        Home::Query
        | Home::Mail
        | Home::Act
        | Home::Store
        | Home::Note
        | Home::Sleep
        | Home::Reset => "H",
    }
}

macro_rules! is_pure {
    (Pure) => { true };
    ($home:ident) => { false };
}

macro_rules! match_pure {
    ([$id:ident] $($variant:ident $name:literal $home:ident ($($kind:ident),*) $($result:ident)?;)*) => {
        match $id {
            $(BuiltinId::$variant => is_pure!($home),)*
        }
    };
}

fn is_pure(id: BuiltinId) -> bool {
    builtins!(match_pure id)
}

/// A call's name, which it is, the letters of its home and its kinds, and whether it is pure by the table itself.
fn tell_row(told: &mut Shown, id: BuiltinId) {
    let row = id.row();
    told.add(row.name);
    told.add(" ");
    told.debug(&id);
    told.add(" ");
    told.add(home_letter(row.home));
    tell_kinds(told, row.params.as_slice());
    if let Some(kind) = row.result {
        told.add(">");
        told.add(letter(kind));
    }
    if is_pure(id) {
        told.add(" pure");
    }
}

/// Shows what is found by a call's name; whether anything is by another one.
fn tell_builtin(told: &mut Shown, name: &str, changed: &str) -> bool {
    if let Some(id) = find(name) {
        tell_row(told, id);
    }
    find(changed).is_some()
}

/// Shows what is found by an event's name; whether anything is by another one.
fn tell_event(told: &mut Shown, name: &str, changed: &str) -> bool {
    if let Some(id) = event(name) {
        told.add(event_name(id));
        told.add(" ");
        told.debug(&id);
        told.add("(");
        tell_kinds(told, signature(id).as_slice());
        told.add(")");
    }
    event(changed).is_some()
}

/// Shows what is found by a constant's name; whether anything is by another one.
fn tell_constant(told: &mut Shown, name: &str, changed: &str) -> bool {
    if let Some(id) = constant(name) {
        told.add(constant_name(id));
        told.add(" ");
        told.debug(&id);
        told.add(" ");
        told.add(letter(constant_kind(id)));
        told.add(" ");
        match constant_value(id) {
            ConstantValue::Int(n) => told.put(&n),
            ConstantValue::Str(characters) => told.debug(&characters),
        }
    }
    constant(changed).is_some()
}
