//! Look-ups of names: a table of slots, each with the number of the one row that may have a name.

ghost use Rattle.std.specs.Prelude.{◌≡◌, ◌<◌, ◌%◌, slice_index};
ghost use Rattle.lsl_table.specs.Names.{hash_of, hash_prime};

/// A prime below 2^16: hashes are below it.
const PRIME: usize = 65_521;

/// The rows of a table, found by their names' hashes: in each of `N` slots the number of the one row whose name
/// leads there, or 255.
pub struct Rows<const N: usize> {
    pub base: usize,
    pub slots: [u8; N],
}

impl<const N: usize> Rows<N> {
    /// The number of the one row that may have this name. Takes no memory, and one pass over the name.
    pub fn row(&self, name: &str) -> u8
        requires some { 0 < N }
        requires small { self.now.base < hash_prime }
        ensures { result ≡ slice_index self.now.slots (hash_of self.now.base name.now % N) }
    {
        self.slots[hash(self.base, name.as_bytes()) % N]
    }
}

fn hash(base: usize, text: &[u8]) -> usize
    requires { base < hash_prime }
    ensures { result ≡ hash_of base text.now }
{
    let mut hash = 0;
    for byte in text {
        hash = (hash * base + usize::from(*byte)) % PRIME;
    }
    hash
}
