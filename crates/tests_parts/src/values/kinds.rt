//! Charges, truths and keys, and the rows of operators and casts.

use crate::shown::Shown;
use crate::values::operators::operator;
use crate::values::words;
use crate::values::words::{headed, letter, letter_or_dash, tell_made, tell_value, text};
use crate::words::parted;
use lsl_value::{BinaryOp, Kind, Value, Values, charge, copy, truth, valid_key};
use std::alloc::AllocError;

pub fn tell(told: &mut Shown, word: &str, rest: &str) -> Result<(), AllocError> {
    match word {
        "key" => key(told, rest)?,
        "value" => value(told, rest)?,
        "values" => values(told, rest)?,
        "pair" => pair(told, kinds(rest)),
        "kind" => kind(told, rest),
        "implicitly" => implicitly(told, kinds(rest)),
        _ => told.add("no such row"),
    }
    Ok(())
}

/// Whether the characters of a key are valid, and whether the key holds.
fn key(told: &mut Shown, characters: &str) -> Result<(), AllocError> {
    let key = text(told.alloc(), characters)?;
    told.put(&valid_key(&key));
    told.add(" ");
    told.put(&truth(&Value::Key(key)));
    Ok(())
}

/// A value's kind, its charge, whether it holds, and its copy.
fn value(told: &mut Shown, word: &str) -> Result<(), AllocError> {
    let value = words::value(told.alloc(), word)?;
    tell_sort(told, &value);
    tell_made(told, copy(&value));
    Ok(())
}

fn tell_sort(told: &mut Shown, value: &Value) {
    told.add(letter(value.kind()));
    told.add(" ");
    told.put(&charge(value));
    told.add(" ");
    told.put(&truth(value));
    told.add(" ");
}

/// How many values there are, and a copy of them.
fn values(told: &mut Shown, word: &str) -> Result<(), AllocError> {
    let values = words::values(told.alloc(), word)?;
    told.put(&values.len());
    let copied = values.copy(told.alloc());
    tell_copied(told, copied)
}

fn tell_copied(told: &mut Shown, copied: Result<Values, AllocError>) -> Result<(), AllocError> {
    for value in copied?.as_slice() {
        told.add(" ");
        tell_value(told, value);
    }
    Ok(())
}

/// Two kinds, by their letters.
fn kinds(letters: &str) -> (Kind, Kind) {
    let (left, right) = headed(letters);
    (words::kind(left), words::kind(right))
}

/// The kinds of a sum and of a comparison of two kinds, and whether the first is cast to the second.
fn pair(told: &mut Shown, kinds: (Kind, Kind)) {
    let (left, right) = kinds;
    told.add(letter_or_dash(BinaryOp::Add.result_kind(left, right)));
    told.add(letter_or_dash(BinaryOp::Unequal.result_kind(left, right)));
    told.add(" ");
    told.put(&left.casts_to(right));
}

/// The kind that an operator gives: `SIGN KINDS`.
fn kind(told: &mut Shown, asked: &str) {
    let (sign, letters) = parted(asked, " ");
    let (left, right) = kinds(letters);
    told.add(letter_or_dash(operator(sign).result_kind(left, right)));
}

/// Whether the first of two kinds is cast to the second implicitly.
fn implicitly(told: &mut Shown, kinds: (Kind, Kind)) {
    let (from, to) = kinds;
    told.put(&from.casts_implicitly_to(to));
}
