//! Worlds that are frozen in the middle of a handler, and thawed.

use crate::objects::unhex;
use crate::stepping::frozen_twice;
use crate::texts::{CALLS, world_of};
use std::test::Fail;

/// Steps, and what the frozen world has after them: its number of bytes, and its last ones, the digest, which another
/// program computed from the form of images.
const ROWS: &str =
    "touch; go 1 4 -> 247 d93bdb09a35b3a304d6a8e69c0c74be24bd6d469ad078fdc13433339836aaaf7
touch; go 1 4; cross 1 \"B\"; clock 7000 -> 247 c2c415887e81f86ddeefc896c4bb904f4f339fe061ef5e3651825dab69078190";

#[test]
fn frozen_worlds_thaw_to_themselves(rt: HostRuntime) -> Result<(), Fail> {
    for row in ROWS.split('\n') {
        let (steps, want) = row.split_once(" -> ").ok_or("steps and a world")?;
        let (count, digest) = want.split_once(' ').ok_or("a count and a digest")?;
        let world = world_of(rt.alloc(), steps)?;
        let frozen = frozen_twice(rt.alloc(), world.as_str(), CALLS)?;
        let (first, again) = frozen.ok_or("a good world and script")?;
        let last = unhex(rt.alloc(), digest)?;
        assert!(rt; last.len() == 32, "{row}");
        assert!(rt; count.parse::<usize>() == Ok(first.len()), "{row}");
        assert!(rt; first.as_slice().ends_with(last.as_slice()), "{row}");
        assert!(rt; first.as_slice() == again.as_slice(), "{row}");
    }
    Ok(())
}
