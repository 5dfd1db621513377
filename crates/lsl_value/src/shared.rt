//! Shared vectors of elements: added to in place where nobody else holds them, else copied.

ghost use Rattle.std.specs.Prelude.{◌≡◌, [], ◌++◌, if◌then◌else◌, ◌∷◌, ◌+◌, ◌≤◌, ◌<◌, length, drop, slice_range, IfOk};
ghost use Rattle.std.specs.Rc.{rc_value};
ghost use Rattle.std.specs.Result.{is_ok};
ghost use Rattle.lsl_value.specs.Limits.{most_items};

use crate::list::Atom;
use lsl_text::NoMemory;
use std::alloc::Global;
use std::rc::Rc;

/// The elements from one place up to another.
pub fn kept(list: Vec<Atom>, start: usize, end: usize) -> Vec<Atom>
    requires ordered { start ≤ end }
    requires within { end ≤ length list.items }
    ensures { result.items ≡ slice_range list.items start end }
{
    let mut list = list;
    list.truncate(end);
    drop_front(&mut list, start);
    list
}

fn drop_front(list: &mut Vec<Atom>, n: usize)
    requires { n ≤ length list.old.items }
    ensures { list.new.items ≡ drop n list.old.items }
{
    list.drain(..n);
}

/// A list of one element, to be shared.
pub fn one_held(alloc: Global, atom: Atom) -> Result<Rc<Vec<Atom>>, NoMemory>
    ensures { IfOk result (λ held. (rc_value held).items ≡ atom ∷ []) }
{
    Ok(Rc::new(alloc, vec![in alloc; atom]?)?)
}

/// Adds an element at the end: in place where nobody else holds the list, else to a copy.
pub fn push_held(held: &mut Rc<Vec<Atom>>, atom: Atom) -> Result<(), NoMemory>
    requires { length (rc_value held.old).items < most_items }
    ensures { (rc_value held.new).items
        ≡ (if is_ok result then (rc_value held.old).items ++ atom ∷ [] else (rc_value held.old).items) }
{
    if let Some(list) = Rc::get_mut(held) {
        return Ok(list.push(atom)?);
    }
    let mut list = copied(*held.allocator(), held.as_slice(), 1)?;
    list.push(atom)?;
    *held = Rc::new(*list.allocator(), list)?;
    Ok(())
}

/// Adds an element before the others: in place where nobody else holds the list, else to a copy.
pub fn push_front_held(held: &mut Rc<Vec<Atom>>, atom: Atom) -> Result<(), NoMemory>
    requires { length (rc_value held.old).items < most_items }
    ensures { (rc_value held.new).items
        ≡ (if is_ok result then atom ∷ (rc_value held.old).items else (rc_value held.old).items) }
{
    if let Some(list) = Rc::get_mut(held) {
        return Ok(list.insert(0, atom)?);
    }
    let mut list = copied(*held.allocator(), held.as_slice(), 1)?;
    list.insert(0, atom)?;
    *held = Rc::new(*list.allocator(), list)?;
    Ok(())
}

/// Adds elements at the end: in place where nobody else holds the list, else to a copy.
pub fn append_held(held: &mut Rc<Vec<Atom>>, more: Vec<Atom>) -> Result<(), NoMemory>
    requires { length (rc_value held.old).items + length more.items ≤ most_items }
    ensures { (rc_value held.new).items
        ≡ (if is_ok result then (rc_value held.old).items ++ more.items else (rc_value held.old).items) }
{
    let mut more = more;
    if let Some(list) = Rc::get_mut(held) {
        return list.append(&mut more);
    }
    let mut list = copied(*held.allocator(), held.as_slice(), more.len())?;
    list.append(&mut more)?;
    *held = Rc::new(*list.allocator(), list)?;
    Ok(())
}

/// A copy of the elements, with room for some more; their texts are shared.
pub fn copied(alloc: Global, atoms: &[Atom], more: usize) -> Result<Vec<Atom>, NoMemory>
    requires { length atoms.now + more ≤ most_items }
    ensures { IfOk result (λ copied. copied.items ≡ atoms.now) }
{
    let mut copied = Vec::with_capacity(alloc, atoms.len() + more)?;
    for atom in atoms {
        copied.push(atom.copy()?)?;
    }
    Ok(copied)
}
