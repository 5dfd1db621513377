//! The top call for a page in a browser: a request comes as bytes, and what is written goes into a buffer that the page
//! lends.
#![tactic(auto)]

ghost use Rattle.std.specs.Prelude.{◌≡◌, ◌<◌, ◌≤◌, ◌∷◌, [], IfOk, IsErrOf, List, None, Some, length, take};
ghost use Rattle.lsl_lines.specs.declared.file.WorldFile.{WorldFile};
ghost use Rattle.lsl_notes.specs.declared.cards.Notecard.{Notecard};
ghost use Rattle.lsl_tree.specs.Program.{Program};
ghost use Rattle.lsl_top.specs.Status.{number_of};
ghost use Rattle.lsl_top.specs.Words.{Command, State, command_in};
ghost use Rattle.lsl_top.specs.declared.status.Status.TheVariants.{ReadFault, WriteFault};
ghost use Rattle.lsl_page.specs.Ended.{EndedAs};
ghost use Rattle.lsl_page.specs.Faults.{IsMissing};
ghost use Rattle.lsl_page.specs.Headline.{Runs, WritesJournal};
ghost use Rattle.lsl_page.specs.Request.{IsAsked, IsRequest, files_in};
ghost use Rattle.lsl_page.specs.Stepping.{StateAs, TraceAs, position_of};
ghost use Rattle.std.specs.Str.{IsUtf8};

mod place;
mod request_shelf;
mod returning_link;
mod room_sink;
mod run;
mod stepping;
mod words;

use crate::request_shelf::RequestShelf;
use crate::room_sink::RoomSink;
use crate::run::answer;
use crate::stepping::{position, write_moment, write_state, write_trace};
use crate::words::Refused;
use lsl_top::Status;
pub use place::Place;
use std::alloc::Global;

/// The answer to a request that isn't in its form.
const NOT_IN_FORM: u8 = 9;

/// The answer when there is no memory for the words of a request.
const NO_MEMORY: u8 = 10;

/// Runs a command over the files of a request.
///
/// `word` is `once`, `check`, `replay` or `freeze`, and `file` the name of its file; or `word` is `make`, and `file`
/// the seed of the generated world. The files are at `places` among `bytes`; of two of one name the first counts. What
/// is written is at the front of `page`, and `written` is the number of its bytes.
///
/// The answer is the number of the command's status, or 9 if the request isn't in its form, or 10 if there is no memory
/// for its words.
///
/// It takes memory for the two words, and for what the command needs; the files aren't copied, nor is the output.
#[unsafe(no_mangle)]
pub extern "C" fn lsl_page_run(
    alloc: Global,
    word: &[u8],
    file: &[u8],
    bytes: &[u8],
    places: &[Place],
    page: &mut [u8],
    written: &mut usize,
) -> u8
    // Below 9 the request is in its form, and the command ended with the status of that number.
    ensures ended { result < 9 → EndedAs word.now file.now bytes.now places.now result (length page.new)
        (take written.new page.new) }
    // Given a good world with its notecards, or `once`, and accepted scripts, the number is 0 and the output exactly
    // the journal of the scripts' meaning over all steps; or the buffer was full or memory ran out, and the output is a
    // prefix of it.
    ensures headline { (command : Command) (world : WorldFile) (programs : List Program) (cards : List Notecard)
        → result < 9 → command_in (word.now ∷ file.now ∷ []) ≡ Some command
        → Runs (files_in bytes.now places.now) command world programs cards
        → WritesJournal world programs cards result (take written.new page.new) }
    // At the number of a failed read a file that is named isn't in the request; at that of a failed write the buffer is
    // full.
    ensures missing { result ≡ number_of ReadFault
        → IsMissing (files_in bytes.now places.now) (command_in (word.now ∷ file.now ∷ [])) }
    ensures full { result ≡ number_of WriteFault → written.new ≡ length page.new }
    // 9 comes only if the request isn't in its form, and at 9 and 10 nothing was written.
    ensures form { result ≡ 9 → ¬ IsRequest word.now file.now bytes.now places.now }
    ensures nothing { 9 ≤ result → written.new ≡ 0 }
    ensures number { result ≤ 10 }
    // What was written is at most the buffer.
    ensures within { written.new ≤ length page.new }
{
    number_of_answer(answer(alloc, word, file, bytes, places, page, written))
}

/// Writes the trace of a world file, from the step `first` to the step `last` of it (docs/DEBUGGING.md).
///
/// Steps are counted from 1. The files, the output and the answer are as those of [`lsl_page_run`]; a journal that is
/// too long to be traced counts as an output that doesn't fit.
#[unsafe(no_mangle)]
pub extern "C" fn lsl_page_trace(
    alloc: Global,
    file: &[u8],
    first: usize,
    last: usize,
    bytes: &[u8],
    places: &[Place],
    page: &mut [u8],
    written: &mut usize,
) -> u8
    // Below 9 the request is in its form, and the trace ended with this number.
    ensures ended { result < 9 → TraceAs file.now first last bytes.now places.now result (length page.new)
        (take written.new page.new) }
    ensures form { result ≡ 9 → ¬ IsAsked file.now bytes.now places.now }
    ensures nothing { 9 ≤ result → written.new ≡ 0 }
    ensures number { result ≤ 10 }
    ensures within { written.new ≤ length page.new }
{
    let mut shelf = RequestShelf::new(bytes, places);
    let mut sink = RoomSink::new(page);
    let answered = write_trace(alloc, file, (first, last), &mut shelf, &mut sink);
    *written = sink.count();
    number_of_answer(answered)
}

/// Writes the lines of the moment to which a move leads from the moment `moment` of a trace, or `nowhere`.
///
/// `words` has the move's words, each a line; without a word the moment itself is shown. The files and the output are
/// as those of [`lsl_page_run`]. The answer is the number of a status: of `Usage` if the words aren't a move, and of
/// `BadWorld` if the file isn't a trace.
#[unsafe(no_mangle)]
pub extern "C" fn lsl_page_seek(
    alloc: Global,
    file: &[u8],
    moment: usize,
    words: &[u8],
    bytes: &[u8],
    places: &[Place],
    page: &mut [u8],
    written: &mut usize,
) -> u8
    // At the number of a failed read the file isn't in the request; at that of a failed write the buffer is full.
    ensures missing { result ≡ number_of ReadFault → files_in bytes.now places.now file.now ≡ None }
    ensures full { result ≡ number_of WriteFault → written.new ≡ length page.new }
    ensures form { result ≡ 9 → ¬ (IsAsked file.now bytes.now places.now × IsUtf8 words.now) }
    ensures nothing { 9 ≤ result → written.new ≡ 0 }
    ensures number { result ≤ 10 }
    ensures within { written.new ≤ length page.new }
{
    let shelf = RequestShelf::new(bytes, places);
    let mut sink = RoomSink::new(page);
    let answered = write_moment(alloc, file, moment, words, &shelf, &mut sink);
    *written = sink.count();
    number_of_answer(answered)
}

/// Writes the journal of a world file up to a position, and then what the world holds there (docs/DEBUGGING.md).
///
/// The position is after `segment` segments of the step `step`, counted from 1, or after all steps if `step` is 0. The
/// files, the output and the answer are as those of [`lsl_page_run`].
#[unsafe(no_mangle)]
pub extern "C" fn lsl_page_state(
    alloc: Global,
    file: &[u8],
    step: usize,
    segment: usize,
    bytes: &[u8],
    places: &[Place],
    page: &mut [u8],
    written: &mut usize,
) -> u8
    // Below 9 the request is in its form, and the state ended with the status of that number.
    ensures ended { result < 9 → StateAs file.now (position_of step segment) bytes.now places.now result
        (length page.new) (take written.new page.new) }
    // At the number of a failed read a file that is named isn't in the request; at that of a failed write the buffer is
    // full.
    ensures missing { result ≡ number_of ReadFault
        → IsMissing (files_in bytes.now places.now) (Some (State (position_of step segment) file.now)) }
    ensures full { result ≡ number_of WriteFault → written.new ≡ length page.new }
    ensures form { result ≡ 9 → ¬ IsAsked file.now bytes.now places.now }
    ensures nothing { 9 ≤ result → written.new ≡ 0 }
    ensures number { result ≤ 10 }
    ensures within { written.new ≤ length page.new }
{
    let mut shelf = RequestShelf::new(bytes, places);
    let mut sink = RoomSink::new(page);
    let at = position(step, segment);
    let answered = write_state(alloc, file, at, &mut shelf, &mut sink);
    *written = sink.count();
    number_of_answer(answered)
}

/// The number that answers a request.
fn number_of_answer(answered: Result<Status, Refused>) -> u8
    ensures ok { IfOk answered (λ status. result ≡ number_of status) }
    ensures form { IsErrOf answered Refused.NotInForm → result ≡ 9 }
    ensures memory { IsErrOf answered Refused.NoMemory → result ≡ 10 }
{
    match answered {
        Ok(status) => status.number(),
        Err(Refused::NotInForm) => NOT_IN_FORM,
        Err(Refused::NoMemory) => NO_MEMORY,
    }
}
