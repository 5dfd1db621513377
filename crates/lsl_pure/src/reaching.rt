//! How many bytes match a mark from each place of a text on, found from one place to the next.

ghost use Rattle.std.specs.Prelude.{◌≡◌, ◌≤◌, ◌<◌, ◌+◌, ◌-◌, length, drop, nat_eq, IfOk};
ghost use Rattle.std.specs.List.{common_prefix_len};
ghost use Rattle.lsl_pure.specs.Firsts.{AreOwn};

use lsl_text::NoMemory;
use std::alloc::Global;

/// How many bytes from a place of a text on are those of a mark's prefix.
#[derive(Clone, Copy)]
pub struct Reach {
    place: usize,
    len: usize,
}

impl Reach {
    /// The reach at a place, compared byte by byte.
    pub fn new(text: &[u8], mark: &[u8], place: usize) -> Reach
        requires { place ≤ length text.now }
        ensures place { result.place ≡ place }
        ensures reached { result.len ≡ common_prefix_len nat_eq (drop place text.now) mark.now }
    {
        Reach {
            place,
            len: common_len(&text[place..], mark),
        }
    }

    /// Goes on to a place, and returns how many bytes from there on are those of the mark's prefix. `own` holds the
    /// same counts for the mark's own places, so no byte of the text that matched is compared again.
    pub fn go(&mut self, text: &[u8], mark: &[u8], own: &[usize], at: usize) -> usize
        requires ordered { self.old.place ≤ at }
        requires within { at ≤ length text.now }
        requires reached { self.old.len ≡ common_prefix_len nat_eq (drop self.old.place text.now) mark.now }
        requires own { AreOwn mark.now own.now }
        requires covered { at - self.old.place < self.old.len → at - self.old.place < length own.now }
        ensures value { result ≡ common_prefix_len nat_eq (drop at text.now) mark.now }
        ensures reached { self.new.len ≡ common_prefix_len nat_eq (drop self.new.place text.now) mark.now }
        ensures ordered { self.new.place ≤ at }
        ensures later { self.old.place ≤ self.new.place }
    {
        let past = at - self.place;
        if self.len <= past {
            return self.compare(text, mark, at, 0);
        }
        let known = self.len - past;
        if own[past] < known {
            return own[past];
        }
        self.compare(text, mark, at, known)
    }

    // The reach at a place where the first `known` bytes are known to match.
    fn compare(&mut self, text: &[u8], mark: &[u8], at: usize, known: usize) -> usize
        requires text { at + known ≤ length text.now }
        requires mark { known ≤ length mark.now }
        requires known { known + common_prefix_len nat_eq (drop (at + known) text.now) (drop known mark.now)
            ≡ common_prefix_len nat_eq (drop at text.now) mark.now }
        ensures value { result ≡ common_prefix_len nat_eq (drop at text.now) mark.now }
        ensures len { self.new.len ≡ result }
        ensures place { self.new.place ≡ at }
    {
        self.place = at;
        self.len = known + common_len(&text[at + known..], &mark[known..]);
        self.len
    }
}

/// How many bytes from each place of a mark on are those of its own prefix. Takes time in proportion to the mark.
pub fn own_reaches(alloc: Global, mark: &[u8]) -> Result<Vec<usize>, NoMemory>
    requires { 0 < length mark.now }
    ensures own { IfOk result (λ own. AreOwn mark.now own.items) }
    ensures each { IfOk result (λ own. length own.items ≡ length mark.now) }
{
    let mut own = Vec::with_capacity(alloc, mark.len())?;
    own.push(mark.len())?;
    let mut reach = Reach::new(mark, mark, 1);
    'places: for at in 1..mark.len() {
        let len = reach.go(mark, mark, own.as_slice(), at);
        own.push(len)?;
    }
    Ok(own)
}

// The length of the common prefix of two texts.
fn common_len(a: &[u8], b: &[u8]) -> usize
    ensures value { result ≡ common_prefix_len nat_eq a.now b.now }
    ensures within { result ≤ length b.now }
{
    let mut len = 0;
    'bytes: while len < a.len() && len < b.len() && a[len] == b[len] {
        len += 1;
    }
    len
}
