//! Stores: what each command answers.

use crate::shown::Shown;
use crate::stores::{repeated, text};
use crate::words::{number, parted, signed};
use lsl_data::{Store, Wrote};
use std::alloc::{AllocError, Global};

/// What a store answers to commands, one after another.
pub fn tell(told: &mut Shown, commands: &str) -> Result<(), AllocError> {
    let mut store = Store::new(told.alloc());
    answer_all(told, &mut store, commands)
}

fn answer_all(told: &mut Shown, store: &mut Store, commands: &str) -> Result<(), AllocError> {
    for command in commands.split(", ") {
        answer(told, store, command)?;
        told.add(" ");
    }
    Ok(())
}

fn answer(told: &mut Shown, store: &mut Store, command: &str) -> Result<(), AllocError> {
    let (word, rest) = parted(command, " ");
    match word {
        "write" => write(told, store, rest)?,
        "fill" => fill(told, store, rest)?,
        "delete" => delete(told, store, rest)?,
        "read" => tell_value(told, store, rest)?,
        "keys" => tell_keys(told, store, rest)?,
        "again" => again(told, store)?,
        _ => tell_size(told, store, word),
    }
    Ok(())
}

/// The answer's number.
fn number_of(wrote: Wrote) -> u8 {
    match wrote {
        Wrote::Stored | Wrote::Deleted => 0,
        Wrote::Full => 1,
        Wrote::NoKey => 2,
        Wrote::NotFound => 4,
        Wrote::Same => 5,
    }
}

fn write(told: &mut Shown, store: &mut Store, asked: &str) -> Result<(), AllocError> {
    let (name, value) = parted(asked, "=");
    write_pair(told, store, name, value)
}

/// A write of a name with this many letters.
fn fill(told: &mut Shown, store: &mut Store, asked: &str) -> Result<(), AllocError> {
    let (name, count) = parted(asked, "=");
    let value = repeated(told.alloc(), "v", number(count))?;
    write_pair(told, store, name, value.as_str())
}

fn write_pair(
    told: &mut Shown,
    store: &mut Store,
    name: &str,
    value: &str,
) -> Result<(), AllocError> {
    let name = text(told.alloc(), name)?;
    let wrote = store.write(name, text(told.alloc(), value)?)?;
    told.put(&number_of(wrote));
    Ok(())
}

fn delete(told: &mut Shown, store: &mut Store, name: &str) -> Result<(), AllocError> {
    let name = text(told.alloc(), name)?;
    told.put(&number_of(store.delete(&name)));
    Ok(())
}

fn tell_value(told: &mut Shown, store: &Store, name: &str) -> Result<(), AllocError> {
    let name = text(told.alloc(), name)?;
    match store.read(&name) {
        Some(value) => told.add(value.as_str()),
        None => told.add("none"),
    }
    Ok(())
}

fn tell_keys(told: &mut Shown, store: &Store, asked: &str) -> Result<(), AllocError> {
    let (first, count) = parted(asked, " ");
    let keys = store.keys(signed(first), signed(count))?;
    told.add("[");
    for key in keys.as_slice() {
        let name = key.text(told.alloc())?;
        told.add(name.as_str());
        told.add(" ");
    }
    told.add("]");
    Ok(())
}

/// Makes the store of its pairs again.
fn again(told: &mut Shown, store: &mut Store) -> Result<(), AllocError> {
    let made = made_again(told.alloc(), store)?;
    *store = made;
    told.add("again");
    Ok(())
}

fn made_again(alloc: Global, store: &Store) -> Result<Store, AllocError> {
    Store::from_pairs(alloc, store.pairs()?)
}

fn tell_size(told: &mut Shown, store: &mut Store, word: &str) {
    match word {
        "count" => told.put(&store.count()),
        "free" => told.put(&store.free()),
        _ => {
            store.reset();
            told.add("reset");
        }
    }
}
