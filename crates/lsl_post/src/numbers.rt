//! Numbers of listens.

ghost use Rattle.std.specs.Prelude.{◌≡◌, ◌<◌, true, false, length, IfSome};
ghost use Rattle.lsl_post.specs.Listens.{free_number, has_number, is_number, number_after, place_of_number};

use crate::listen_table::ListenTable;

impl ListenTable {
    /// The first number from the next on that no listen has. Takes no memory; walks the listens for each
    /// number that one has.
    pub(crate) fn free_number(&self) -> i32
        ensures value { result ≡ free_number self.now }
        ensures free { has_number self.now.list result ≡ false }
        ensures number { is_number result ≡ true }
    {
        let mut number = self.next();
        for _place in 0..self.count() {
            if !self.has_number(number) {
                return number;
            }
            number = number_after(number);
        }
        number
    }

    // Whether there is a listen of this number.
    fn has_number(&self, number: i32) -> bool
        ensures { result ≡ has_number self.now.list number }
    {
        self.place_of(number).is_some()
    }

    /// The place of the listen of this number, if there is one. Takes no memory; walks the listens.
    pub(crate) fn place_of(&self, number: i32) -> Option<u32>
        ensures place { result ≡ place_of_number number self.now.list }
        ensures within { IfSome result (λ place. place < length self.now.list) }
    {
        for place in 0..self.count() {
            if self.listen(place).has_number(number) {
                return Some(place);
            }
        }
        None
    }
}

/// The number after a number: 1 after the greatest.
pub(crate) fn number_after(number: i32) -> i32
    requires { is_number number ≡ true }
    ensures { result ≡ number_after number }
{
    if number == i32::MAX { 1 } else { number + 1 }
}
