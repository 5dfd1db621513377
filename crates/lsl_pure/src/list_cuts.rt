//! Parts of a list: `llList2List`, `llDeleteSubList`, `llListInsertList` and `llListReplaceList`. Elements are
//! moved, or copied where another list shares them.

ghost use Rattle.std.specs.Prelude.{◌≡◌, ◌≤◌, ◌<◌, ◌++◌, length, take, drop, slice_range, IfOk};
ghost use Rattle.lsl_value.specs.Atoms.{list_charge_of};
ghost use Rattle.lsl_value.specs.Limits.{most_charge};
ghost use Rattle.lsl_pure.specs.Bounds.{TooBigOnlyWhere};
ghost use Rattle.lsl_pure.specs.Cuts.{taken, left, inserted, inserted_before, replaced};

use crate::PureFault;
use crate::ranges::{Range, clamp, place};
use lsl_text::NoMemory;
use lsl_value::{Items, LIST_CHARGE, MOST_CHARGE};

/// What stands in the range: copies it alone where another list shares the elements. See
/// <https://wiki.secondlife.com/wiki/LlList2List>.
pub fn sub_list(items: Items, first: i32, last: i32) -> Result<Items, NoMemory>
    ensures { IfOk result (λ part. part ≡ taken items first last) }
{
    let range = Range::new(items.len(), first, last);
    if range.turned {
        outside(items, range.start, range.end)
    } else {
        inside(items, range.start, range.end)
    }
}

/// What doesn't stand in the range. See <https://wiki.secondlife.com/wiki/LlDeleteSubList>.
pub fn delete_sub_list(items: Items, first: i32, last: i32) -> Result<Items, NoMemory>
    ensures { IfOk result (λ rest. rest ≡ left items first last) }
{
    let range = Range::new(items.len(), first, last);
    if range.turned {
        inside(items, range.start, range.end)
    } else {
        outside(items, range.start, range.end)
    }
}

fn inside(items: Items, start: usize, end: usize) -> Result<Items, NoMemory>
    requires ordered { start ≤ end }
    requires within { end ≤ length items }
    ensures { IfOk result (λ part. part ≡ slice_range items start end) }
{
    Items::from_vec(items.cut(start, end)?)
}

fn outside(items: Items, start: usize, end: usize) -> Result<Items, NoMemory>
    requires ordered { start ≤ end }
    requires within { end ≤ length items }
    ensures { IfOk result (λ rest. rest ≡ take start items ++ drop end items) }
{
    let mut list = items.into_vec()?;
    list.drain(start..end);
    Items::from_vec(list)
}

/// The second list inserted before a place of the first, which counts from the end where it is negative. Too big
/// before anything is built. See <https://wiki.secondlife.com/wiki/LlListInsertList>.
pub fn insert_list(items: Items, other: Items, at: i32) -> Result<Items, PureFault>
    ensures ok { IfOk result (λ whole. whole ≡ inserted_before items at other) }
    ensures too_big { TooBigOnlyWhere result (most_charge < list_charge_of (inserted_before items at other)) }
{
    let len = items.len();
    insert(items, clamp(len, place(len, at)), other)
}

/// The second list in the place of a range of the first; behind what is left where the range is turned. See
/// <https://wiki.secondlife.com/wiki/LlListReplaceList>.
pub fn replace_list(items: Items, other: Items, first: i32, last: i32) -> Result<Items, PureFault>
    ensures ok { IfOk result (λ whole. whole ≡ replaced items other first last) }
    ensures too_big { TooBigOnlyWhere result (most_charge < list_charge_of (replaced items other first last)) }
{
    let range = Range::new(items.len(), first, last);
    if range.turned {
        let rest = inside(items, range.start, range.end)?;
        let len = rest.len();
        insert(rest, len, other)
    } else {
        let rest = outside(items, range.start, range.end)?;
        insert(rest, range.start, other)
    }
}

fn insert(items: Items, at: usize, other: Items) -> Result<Items, PureFault>
    requires { at ≤ length items }
    ensures ok { IfOk result (λ whole. whole ≡ inserted items at other) }
    ensures too_big { TooBigOnlyWhere result (most_charge < list_charge_of (inserted items at other)) }
{
    if items.charge() + (other.charge() - LIST_CHARGE) > MOST_CHARGE {
        return Err(PureFault::TooBig);
    }
    let mut list = items.into_vec()?;
    let mut more = other.into_vec()?;
    list.reserve(more.len())?;
    let mut tail = list.split_off(at)?;
    list.append(&mut more)?;
    list.append(&mut tail)?;
    Ok(Items::from_vec(list)?)
}
