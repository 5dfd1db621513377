//! Lists that grow and are cut, alone and shared.

use crate::shown::Shown;
use crate::values::words::{atom, items, tell_atoms};
use crate::words::{parted, short};
use lsl_value::{Items, MAX_ITEMS};
use std::alloc::{AllocError, Global};
use std::mem;

pub fn tell(told: &mut Shown, word: &str, rest: &str) -> Result<(), AllocError> {
    match word {
        "list" => list(told, rest)?,
        "cut" => cut(told, rest)?,
        _ => told.add("no such row"),
    }
    Ok(())
}

/// A list, its last copy, and what was kept of it.
#[derive(Drop)]
struct Lists {
    list: Items,
    copied: Items,
    kept: Items,
}

/// A list and its copy do these steps: `push` and `front` add an element, `copy` takes a copy, `append` puts it after
/// the list, and `keep` takes a copy for the end. All three are shown.
fn list(told: &mut Shown, steps: &str) -> Result<(), AllocError> {
    let alloc = told.alloc();
    let mut lists = Lists {
        list: Items::new(alloc),
        copied: Items::new(alloc),
        kept: Items::new(alloc),
    };
    take_steps(alloc, &mut lists, steps)?;
    tell_lists(told, lists)
}

fn take_steps(alloc: Global, lists: &mut Lists, steps: &str) -> Result<(), AllocError> {
    for step in steps.split(", ") {
        take_step(alloc, lists, step)?;
    }
    Ok(())
}

fn take_step(alloc: Global, lists: &mut Lists, step: &str) -> Result<(), AllocError> {
    match step {
        "copy" => copy_to(&mut lists.copied, &lists.list),
        "keep" => copy_to(&mut lists.kept, &lists.list),
        "append" => append(alloc, &mut lists.list, &mut lists.copied),
        _ => add(alloc, &mut lists.list, step),
    }
}

fn copy_to(place: &mut Items, list: &Items) -> Result<(), AllocError> {
    *place = list.copy()?;
    Ok(())
}

/// An element more, at the list's end or its front.
fn add(alloc: Global, list: &mut Items, step: &str) -> Result<(), AllocError> {
    let (word, element) = parted(step, " ");
    let atom = atom(alloc, element)?;
    if list.is_full() {
        return Ok(());
    }
    if word == "front" {
        list.push_front(atom)
    } else {
        list.push(atom)
    }
}

/// Puts a list's copy after it, and leaves none.
fn append(alloc: Global, list: &mut Items, copied: &mut Items) -> Result<(), AllocError> {
    let other = mem::replace(copied, Items::new(alloc));
    if list.len() + other.len() <= MAX_ITEMS {
        return list.append(other);
    }
    Ok(())
}

fn tell_lists(told: &mut Shown, lists: Lists) -> Result<(), AllocError> {
    tell_list(told, &lists.list);
    tell_list(told, &lists.copied);
    let kept = lists.kept.into_vec()?;
    tell_atoms(told, kept.as_slice());
    Ok(())
}

/// A list, how many elements it has, and its charge.
fn tell_list(told: &mut Shown, list: &Items) {
    tell_atoms(told, list.as_slice());
    told.add(" ");
    told.put(&list.len());
    told.add(" ");
    told.put(&list.charge());
    told.add("; ");
}

/// The elements from a place on: of a copy, and then of the list itself, with the list between: `PLACE LIST`.
fn cut(told: &mut Shown, asked: &str) -> Result<(), AllocError> {
    let (start, words) = parted(asked, " ");
    let list = items(told.alloc(), words)?;
    tell_cut(told, list.copy()?, short(start))?;
    told.add("; ");
    tell_list(told, &list);
    tell_cut(told, list, short(start))
}

fn tell_cut(told: &mut Shown, list: Items, start: usize) -> Result<(), AllocError> {
    let end = list.len();
    let part = list.cut(start.min(end), end)?;
    tell_atoms(told, part.as_slice());
    Ok(())
}
