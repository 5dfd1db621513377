//! What pure calls give. A bar separates arguments.

use crate::shown::Shown;
use crate::values::words::{tell_answer, text, values};
use lsl_pure::{answer, call, laws};
use lsl_table::find;
use lsl_value::BuiltinId::StringLength;
use lsl_value::{BuiltinId, Value, Values, charge};
use std::alloc::AllocError;

pub fn tell(told: &mut Shown, word: &str, rest: &str) -> Result<(), AllocError> {
    match word {
        "charged" => charged(told, rest),
        "length" => length(told, rest),
        name => called(told, name, rest),
    }
}

/// What a call of this name gives.
fn called(told: &mut Shown, name: &str, args: &str) -> Result<(), AllocError> {
    match find(name) {
        Some(id) => given(told, id, args)?,
        None => told.add("no such row"),
    }
    Ok(())
}

fn given(told: &mut Shown, id: BuiltinId, args: &str) -> Result<(), AllocError> {
    let args = values(told.alloc(), args)?;
    let given = answer(told.alloc(), id, args);
    tell_answer(told, given);
    Ok(())
}

/// The charge of a text that is inserted into another.
fn charged(told: &mut Shown, args: &str) -> Result<(), AllocError> {
    let args = values(told.alloc(), args)?;
    match answer(told.alloc(), BuiltinId::InsertString, args) {
        Ok(value) => told.put(&charge(&value)),
        Err(fault) => told.debug(&fault),
    }
    Ok(())
}

/// How long a text is, by the call that needs arguments of its row.
fn length(told: &mut Shown, word: &str) -> Result<(), AllocError> {
    let text = text(told.alloc(), word)?;
    laws::value_of_its_row(StringLength);
    let args = Values::from_vec(vec![in told.alloc(); Value::Str(text)]?);
    let given = call(told.alloc(), StringLength, args);
    tell_answer(told, given);
    Ok(())
}
