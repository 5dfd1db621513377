//! Listens up to the greatest number, closed, made active or not, and asked for again.

ghost use Rattle.std.specs.Prelude.{◌≡◌, []};
ghost use Rattle.lsl_post.specs.Filters.{filter};
ghost use Rattle.lsl_post.specs.Listens.{listen_of};

use lsl_post::{Listen, ListenFault, Listens};
use lsl_text::NoMemory;
use lsl_value::Text;
use std::alloc::{AllocError, Global};
use std::process::Abort;
use std::test::Fail;

/// Does what is asked: `add` a listen on a channel, `close` the listen of a number, or make it active by `open` and
/// inactive by `shut`. Returns the number of a listen, and 0 if there are too many or none is asked for.
fn asked(listens: &mut Listens, word: &str, number: i32) -> Result<i32, NoMemory> {
    match word {
        "add" => return add(listens, number),
        "close" => listens.close(number),
        "open" => listens.control(number, true),
        _ => listens.control(number, false),
    }
    Ok(0)
}

fn add(listens: &mut Listens, channel: i32) -> Result<i32, NoMemory> {
    match listens.add(channel, Text::new(), Text::new(), Text::new()) {
        Ok(number) => Ok(number),
        Err(ListenFault::TooMany) => Ok(0),
        Err(ListenFault::NoMemory) => Err(AllocError),
    }
}

/// Whether a text on this channel is heard.
fn hears(listens: &Listens, channel: i32) -> bool {
    listens.hears(channel, &Text::new(), &Text::new(), &Text::new())
}

/// All of it is asked, one line after the other: what is asked; the number answered, or 0; the next number and the
/// number of listens then; and whether texts on channels 7 and 8 are heard.
fn answers(
    rt: &impl Abort,
    alloc: Global,
    mut listens: Listens,
    steps: &str,
) -> Result<(), NoMemory> {
    for line in steps.split('\n') {
        if let Some((step, want)) = line.split_once(" -> ") {
            let (word, number) = step.split_once(' ').unwrap_or((step, ""));
            let answer = asked(&mut listens, word, number.parse::<i32>().unwrap_or(0))?;
            let mut told = format!(in alloc; "{answer}; {} {}", listens.next(), listens.count())?;
            write!(told, " {} {}", hears(&listens, 7), hears(&listens, 8))?;
            assert!(rt; told.as_str() == want, "{step} -> {told}");
        }
    }
    Ok(())
}

const CONTROLLED: &str = "\
add 7 -> 1; 2 1 true false\n\
add 8 -> 2; 3 2 true true\n\
add 9 -> 3; 4 3 true true\n\
shut 2 -> 0; 4 3 true false\n\
# Asked for again it is active.\n\
add 8 -> 2; 4 3 true true\n\
shut 2 -> 0; 4 3 true false\n\
open 2 -> 0; 4 3 true true\n\
close 2 -> 0; 4 2 true false\n\
close 2 -> 0; 4 2 true false\n\
close -1 -> 0; 4 2 true false\n\
open 2 -> 0; 4 2 true false\n\
# A number isn't used again.\n\
add 8 -> 4; 5 3 true true\n\
close 1 -> 0; 5 2 false true";

#[test]
fn closed_and_controlled(rt: HostRuntime) -> Result<(), Fail> {
    Ok(answers(&rt, rt.alloc(), Listens::new(rt.alloc()), CONTROLLED)?)
}

/// The greatest number and 1 are taken, and the next is the one before the greatest.
const BEHIND: &str = "\
add 8 -> 2147483646; 2147483647 3 false true\n\
add 21 -> 2; 3 4 false true\n\
close 2147483647 -> 0; 3 3 false true\n\
add 7 -> 3; 4 4 true true\n\
add 21 -> 2; 4 4 true true";

#[test]
fn numbers_behind_the_greatest(rt: HostRuntime) -> Result<(), Fail> {
    let listens = late(rt.alloc())?;
    let copy = listens.copy(rt.alloc())?;
    answers(&rt, rt.alloc(), listens, BEHIND)?;
    Ok(answers(&rt, rt.alloc(), copy, BEHIND)?)
}

/// A listen of this number, on this channel.
fn listen(number: i32, channel: i32) -> Listen
    ensures { result ≡ listen_of number (filter channel [] [] []) }
{
    Listen {
        number,
        active: true,
        channel,
        name: Text::new(),
        id: Text::new(),
        message: Text::new(),
    }
}

/// Listens with the greatest number and the least, and a next number before the greatest.
fn late(alloc: Global) -> Result<Listens, NoMemory> {
    let list = vec![in alloc; listen(i32::MAX, 5), listen(1, 6)]?;
    Listens::from_list(alloc, 2_147_483_646, list)
}

/// The last possible listen, and one too many; then one is closed for it.
const FULL: &str = "\
add 64 -> 65; 66 65 true true\n\
add 3 -> 4; 66 65 true true\n\
add 65 -> 0; 66 65 true true\n\
close 8 -> 0; 66 64 false true\n\
add 65 -> 66; 67 65 false true\n\
add 7 -> 0; 67 65 false true";

#[test]
fn sixty_six_listens(rt: HostRuntime) -> Result<(), Fail> {
    let mut listens = Listens::new(rt.alloc());
    for channel in 0..64 {
        assert_eq!(rt; add(&mut listens, channel)?, channel + 1);
    }
    Ok(answers(&rt, rt.alloc(), listens, FULL)?)
}
