//! Places and ranges of places.

ghost use Rattle.std.specs.Prelude.{◌≡◌, ℕ, ◌≤◌, ◌<◌, not, false, int_le, if◌then◌else◌};
ghost use Rattle.lsl_value.specs.Limits.{most_text_bytes};
ghost use Rattle.lsl_pure.specs.Places.{place_of, clamped, in_range, within};

/// The places of a range among `n` places: those from `start` up to `end`, or where it is turned all the others.
#[derive(Clone, Copy)]
pub struct Range {
    pub start: usize,
    pub end: usize,
    pub turned: bool,
}

impl Range {
    /// The range from one place to another among `n` places. A negative place counts from the end. Where the first is
    /// behind the last, the range is what stands up to the last and from the first one on.
    pub fn new(n: usize, first: i32, last: i32) -> Range
        requires { n ≤ most_text_bytes }
        ensures ordered { result.start ≤ result.end }
        ensures within { result.end ≤ n }
        ensures turned { result.turned ≡ not (int_le (place_of n first) (place_of n last)) }
        ensures start { result.turned ≡ false → result.start ≡ clamped n (place_of n first) }
        ensures same { (k : ℕ) → k < n → in_range n first last k
            ≡ (if result.turned then not (within result.start result.end k) else within result.start result.end
            k) }
    {
        let first = place(n, first);
        let last = place(n, last);
        let before = clamp(n, first);
        let behind = clamp(n, last + 1);
        if first <= last {
            Range {
                start: before,
                end: behind,
                turned: false,
            }
        } else {
            Range {
                start: behind,
                end: before,
                turned: true,
            }
        }
    }
}

/// The place, counted from the end where it is negative.
pub fn place(n: usize, p: i32) -> i64
    requires { n ≤ most_text_bytes }
    ensures { result ≡ place_of n p }
{
    if p < 0 {
        i64::from(p) + n as i64
    } else {
        i64::from(p)
    }
}

/// The nearest place from 0 to `n`.
pub fn clamp(n: usize, p: i64) -> usize
    ensures value { result ≡ clamped n p }
    ensures within { result ≤ n }
{
    match usize::try_from(p) {
        Ok(p) => p.min(n),
        Err(_) => 0,
    }
}
