//! `llSubStringIndex` and `llListFindList`: the first place at which one text or list stands in another.

ghost use Rattle.std.specs.Prelude.{◌≡◌, ◌≤◌, length, nat_eq, IfSome};
ghost use Rattle.lsl_value.specs.Equality.{same_atom};
ghost use Rattle.lsl_pure.specs.Searches.{first_place, place_or_none};

use crate::spelling::count_before;
use lsl_value::{Items, Text};
use memchr::memmem;

/// The first place at which the second text stands in the first, or -1: 0 for an empty one. Takes no memory,
/// and time in proportion to both. See <https://wiki.secondlife.com/wiki/LlSubStringIndex>.
pub fn sub_string_index(text: &Text, sought: &Text) -> i32
    ensures { result ≡ place_or_none (first_place nat_eq text.now sought.now) }
{
    match find_bytes(text.bytes(), sought.bytes()) {
        Some(at) => count_before(text, at) as i32,
        None => -1,
    }
}

/// The first place at which the second list's elements follow one another in the first, kind and value equal, or
/// -1: 0 for an empty one. Takes no memory. See <https://wiki.secondlife.com/wiki/LlListFindList>.
pub fn list_find_list(items: &Items, sought: &Items) -> i32
    ensures { result ≡ place_or_none (first_place same_atom items.now sought.now) }
{
    match find(items.as_slice(), sought.as_slice()) {
        Some(at) => at as i32,
        None => -1,
    }
}

fn find_bytes(text: &[u8], sought: &[u8]) -> Option<usize>
    ensures first { result ≡ first_place nat_eq text.now sought.now }
    ensures within { IfSome result (λ at. at ≤ length text.now) }
{
    memmem::find(text, sought)
}

// The first place of the list at which the other one stands.
fn find<T: PartialEq>(list: &[T], sought: &[T]) -> Option<usize>
    ensures first { result ≡ first_place T.eq list.now sought.now }
    ensures within { IfSome result (λ at. at ≤ length list.now) }
{
    let mut rest = list;
    let mut at = 0;
    'places: loop {
        if rest.starts_with(sought) {
            return Some(at);
        }
        match rest {
            [] => return None,
            [_, more @ ..] => rest = more,
        }
        at += 1;
    }
}
