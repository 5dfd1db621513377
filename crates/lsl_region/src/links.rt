//! Link numbers: which prims a number names.

ghost use Rattle.std.specs.Prelude.{◌≡◌, ◌<◌, ◌≤◌, pos, IfSome};
ghost use Rattle.lsl_region.specs.Links.{is_for, link_of, prim_named, prim_or_this};

/// The numbers that name more than one prim, or the one that asks.
const ALL: i32 = -1;

const ALL_OTHERS: i32 = -2;

const ALL_CHILDREN: i32 = -3;

const THIS: i32 = -4;

/// The number of the prim at this place, among `count`.
pub(crate) fn link_of(count: usize, place: usize) -> i32
    requires { place ≤ 255 }
    ensures { result ≡ pos (link_of count place) }
{
    if count == 1 {
        return 0;
    }
    place as i32 + 1
}

/// The place of the prim that a number names, among `count`: 0 and 1 both name the root.
pub(crate) fn prim_named(count: usize, number: i32) -> Option<usize>
    ensures value { result ≡ prim_named count number }
    ensures within { 0 < count → IfSome result (λ place. place < count) }
{
    if number < 0 {
        return None;
    }
    prim_numbered(count, number as usize)
}

/// The place of the prim that a number from 0 on names, among `count`: 0 and 1 both name the root.
pub(crate) fn prim_numbered(count: usize, number: usize) -> Option<usize>
    ensures value { result ≡ prim_named count (pos number) }
    ensures within { 0 < count → IfSome result (λ place. place < count) }
    ensures few { IfSome result (λ place. (0 < place) → place < count) }
{
    if number <= 1 {
        return Some(0);
    }
    if number <= count {
        return Some(number - 1);
    }
    None
}

/// The place of the prim that a number names, among `count`: -4 names the prim that asks.
pub(crate) fn prim_or_this(count: usize, this: usize, number: i32) -> Option<usize>
    ensures value { result ≡ prim_or_this count this number }
    ensures within { this < count → IfSome result (λ place. place < count) }
{
    if number == THIS {
        return Some(this);
    }
    prim_named(count, number)
}

/// Whether a message to this number is for the prim at this place, where it comes from the prim at another.
pub(crate) fn is_for(count: usize, sender: usize, number: i32, place: usize) -> bool
    ensures { result ≡ is_for count sender number place }
{
    match number {
        ALL => true,
        ALL_OTHERS => place != sender,
        ALL_CHILDREN => place > 0,
        THIS => place == sender,
        _ => prim_named(count, number) == Some(place),
    }
}
