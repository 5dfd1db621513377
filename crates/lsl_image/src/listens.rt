//! Listens.

ghost use Rattle.std.specs.Prelude.{◌≡◌, ◌||◌, ◌&&◌, ◌≤◌, ◌==◌, [], map, not};
ghost use Rattle.std.specs.List.{list_any};
ghost use Rattle.std.specs.Ordering.{int_eq};
ghost use Rattle.lsl_post.specs.Filters.{same_filter};
ghost use Rattle.lsl_post.specs.Listens.{filter_of, has_number, is_number};
ghost use Rattle.lsl_image.specs.Layout.{I32, field_that, grown};
ghost use Rattle.lsl_image.specs.Reading.{Reads};
ghost use Rattle.lsl_image.specs.Script.{filter_behind, listen_behind, listen_with, listens};

use crate::faults::wrong;
use crate::fields::{Read, read_flag, read_i32, read_text, read_u8_within};
use lsl_code::Sequence;
use lsl_post::{Filter, Listen, Listens};
use std::alloc::Global;

/// The greatest number of listens.
const MOST_LISTENS: u8 = 65;

/// The listens, and the number of the next: their numbers and their values differ.
pub fn read_listens(alloc: Global, bytes: &[u8], place: usize) -> Read<Listens>
    ensures { Reads bytes.now listens place result }
{
    let (number, middle) = read_number(bytes, place)?;
    let (count, start) = read_u8_within(bytes, middle, MOST_LISTENS)?;
    let (list, next) = read_list(alloc, bytes, start, count)?;
    let listens = Listens::from_list(alloc, number, list.into_vec())?;
    Ok((listens, next))
}

// The number of the next listen.
#[tactic(auto, unfolding(crate::specs::Layout::field, crate::specs::Layout::field_that))]
fn read_number(bytes: &[u8], place: usize) -> Read<i32>
    ensures { Reads bytes.now (field_that I32 is_number) place result }
{
    let (number, next) = read_i32(bytes, place)?;
    if number < 1 {
        return Err(wrong(place));
    }
    Ok((number, next))
}

// Listens, `count` of them, each after those before it.
fn read_list(alloc: Global, bytes: &[u8], place: usize, count: u8) -> Read<Sequence<Listen>>
    ensures { Reads bytes.now (grown count listen_behind []) place result }
{
    let mut list = Sequence::new(alloc);
    let mut next = place;
    for i in 0..count {
        let (listen, behind) = read_listen(alloc, bytes, next, list.as_slice())?;
        list.push(listen)?;
        next = behind;
    }
    Ok((list, next))
}

// A listen with a number and values that none of these has.
fn read_listen(alloc: Global, bytes: &[u8], place: usize, before: &[Listen]) -> Read<Listen>
    ensures { Reads bytes.now (listen_behind before.now) place result }
{
    let (number, middle) = read_own_number(bytes, place, before)?;
    let (flag, start) = read_flag(bytes, middle)?;
    let (asked, next) = read_filter(alloc, bytes, start, before)?;
    Ok((listen_with(number, flag, asked), next))
}

// The listen of this number that asks this.
fn listen_with(number: i32, flag: u8, asked: Filter) -> Listen
    ensures { result ≡ listen_with number flag asked }
{
    let mut listen = Listen::new(number, asked);
    listen.active = flag == 1;
    listen
}

// A number that none of these listens has.
#[tactic(auto, unfolding(crate::specs::Layout::field, crate::specs::Layout::field_that))]
fn read_own_number(bytes: &[u8], place: usize, before: &[Listen]) -> Read<i32>
    ensures { Reads bytes.now (field_that I32 (λ n. is_number n && not (has_number before.now n))) place result }
{
    let (number, next) = read_i32(bytes, place)?;
    if number < 1 || has_number(before, number) {
        return Err(wrong(place));
    }
    Ok((number, next))
}

// What a listen asks for, which none of these asks for.
fn read_filter(alloc: Global, bytes: &[u8], place: usize, before: &[Listen]) -> Read<Filter>
    ensures { Reads bytes.now (filter_behind before.now) place result }
{
    let (channel, second) = read_i32(bytes, place)?;
    let (name, third) = read_text(alloc, bytes, second)?;
    let (id, last) = read_text(alloc, bytes, third)?;
    let (message, next) = read_text(alloc, bytes, last)?;
    let asked = Filter {
        channel,
        name,
        id,
        message,
    };
    if ask(before, &asked) {
        return Err(wrong(last));
    }
    Ok((asked, next))
}

// Whether one of the listens has this number.
fn has_number(listens: &[Listen], number: i32) -> bool
    ensures { result ≡ has_number listens.now number }
{
    for listen in listens {
        if listen.has_number(number) {
            return true;
        }
    }
    false
}

// Whether one of the listens asks this.
fn ask(listens: &[Listen], asked: &Filter) -> bool
    ensures { result ≡ list_any (same_filter asked.now) (map filter_of listens.now) }
{
    for listen in listens {
        if asks(listen, asked) {
            return true;
        }
    }
    false
}

// Whether the listen asks this.
fn asks(listen: &Listen, asked: &Filter) -> bool
    ensures { result ≡ same_filter asked.now (filter_of listen.now) }
{
    asked.channel == listen.channel
        && asked.name == listen.name
        && asked.id == listen.id
        && asked.message == listen.message
}
