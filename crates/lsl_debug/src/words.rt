//! The words of a command.

ghost use Rattle.std.specs.Prelude.{◌≡◌, map, option_map, string_bytes};
ghost use Rattle.std.specs.Char.{is_ascii_digit};
ghost use Rattle.std.specs.List.{list_all};
ghost use Rattle.lsl_debug.specs.Meant.{meant_by};
ghost use Rattle.lsl_debug.specs.Words.{Trace, command_named, command_of, for_file, names_file, number_in, position_in, seek_of, state_of, stops_of, trace_of, trace_to};

use lsl_top::Position;
use lsl_trace::Request;

/// What the words ask for.
#[derive(Clone, Copy)]
pub enum Command<'a> {
    /// Runs a world file up to a position, or to the end of its steps, and tells what the world holds there.
    State(Option<Position>, &'a str),
    /// Runs a world file, and tells each statement that its scripts begin.
    Trace(Request<'a>),
    /// Tells something of the trace in a file, and runs nothing.
    Look(&'a str, Look<'a>),
}

/// What is told of a trace.
#[derive(Clone, Copy)]
pub enum Look<'a> {
    /// The moment to which a move leads from a moment; without words of a move that moment itself.
    Moment(usize, &'a [String]),
    /// All moments at which one may stop.
    Stops,
}

impl<'a> Command<'a> {
    /// The file that the command names.
    pub fn file(self) -> &'a str {
        match self {
            Command::State(_, world) => world,
            Command::Trace(request) => request.world,
            Command::Look(trace, _) => trace,
        }
    }
}

/// What the words ask for, or none where they are no command. Whether the words of a move are one is seen where it is
/// made. It takes no memory.
pub fn parse_words(words: &[String]) -> Option<Command<'_>>
    ensures { command_of words.now ≡ meant_by result }
{
    match words {
        [word, rest @ ..] => parse_named(word.as_str(), rest),
        [] => None,
    }
}

fn parse_named<'a>(word: &str, words: &'a [String]) -> Option<Command<'a>>
    ensures { command_named word.now (map string_bytes words.now) ≡ meant_by result }
{
    match word {
        "state" => parse_state(words),
        "trace" => parse_trace(words),
        "seek" => parse_seek(words),
        "stops" => parse_stops(words),
        _ => None,
    }
}

fn parse_state(words: &[String]) -> Option<Command<'_>>
    ensures { state_of (map string_bytes words.now) ≡ meant_by result }
{
    match words {
        [world] if names_file(world.as_str()) => Some(Command::State(None, world.as_str())),
        [flag, step, segment, world] if flag.as_str() == "--at" && names_file(world.as_str()) => {
            let at = parse_position(step.as_str(), segment.as_str())?;
            Some(Command::State(Some(at), world.as_str()))
        }
        _ => None,
    }
}

/// A step, counted from 1, and segments of it.
fn parse_position(step: &str, segment: &str) -> Option<Position>
    ensures { position_in step.now segment.now ≡ option_map (λ at. (at.step, at.segment)) result }
{
    let step = parse_number(step)?;
    if step == 0 {
        return None;
    }
    Some(Position {
        step,
        segment: parse_number(segment)?,
    })
}

fn parse_trace(words: &[String]) -> Option<Command<'_>>
    ensures { trace_of (map string_bytes words.now) ≡ meant_by result }
{
    match words {
        [flag, first, words @ ..] if flag.as_str() == "--from" => {
            parse_trace_from(u64::from(parse_number(first.as_str())?), words)
        }
        _ => parse_trace_from(0, words),
    }
}

fn parse_trace_from(first: u64, words: &[String]) -> Option<Command<'_>>
    ensures { trace_to first (map string_bytes words.now) ≡ meant_by result }
{
    match words {
        [world] => trace_named(first, u64::MAX, world.as_str()),
        [flag, last, world] if flag.as_str() == "--to" => {
            trace_named(
                first,
                u64::from(parse_number(last.as_str())?),
                world.as_str(),
            )
        }
        _ => None,
    }
}

fn trace_named(first: u64, last: u64, world: &str) -> Option<Command<'_>>
    ensures { for_file world.now (Trace first last) ≡ meant_by result }
{
    if !names_file(world) {
        return None;
    }
    Some(Command::Trace(Request { world, first, last }))
}

fn parse_seek(words: &[String]) -> Option<Command<'_>>
    ensures { seek_of (map string_bytes words.now) ≡ meant_by result }
{
    match words {
        [trace, moment, words @ ..] if names_file(trace.as_str()) => {
            let moment = parse_number(moment.as_str())? as usize;
            Some(Command::Look(trace.as_str(), Look::Moment(moment, words)))
        }
        _ => None,
    }
}

fn parse_stops(words: &[String]) -> Option<Command<'_>>
    ensures { stops_of (map string_bytes words.now) ≡ meant_by result }
{
    match words {
        [trace] if names_file(trace.as_str()) => Some(Command::Look(trace.as_str(), Look::Stops)),
        _ => None,
    }
}

/// A number in decimal digits alone.
fn parse_number(word: &str) -> Option<u32>
    ensures { number_in word.now ≡ result }
{
    if !has_digits_alone(word.as_bytes()) {
        return None;
    }
    match word.parse::<u32>() {
        Ok(number) => Some(number),
        Err(_) => None,
    }
}

fn has_digits_alone(word: &[u8]) -> bool
    ensures { result ≡ list_all is_ascii_digit word.now }
{
    word.iter().all(|c| c.is_ascii_digit())
}

/// Whether a word may name a file: it isn't empty, and doesn't begin with `-`.
fn names_file(word: &str) -> bool
    ensures { result ≡ names_file word.now }
{
    match word.as_bytes() {
        [] => false,
        [first, ..] => *first != b'-',
    }
}
