//! The forms of steps.

ghost use Rattle.lsl_lines.specs.Fields.{natural_of};
ghost use Rattle.lsl_lines.specs.Forms.{step_of, clock_of, say_of, touch_of, changed_of, rez_of, go_of, run_of, pause_of, cross_of, gap_of, gaps_of};
ghost use Rattle.lsl_lines.specs.Reads.{Gives};

use crate::fields::{BAD_LINE, Field, free, integer, key, name, natural, short};
use crate::file::{Gaps, Step};
use crate::words::Word;
use lsl_code::Sequence;
use std::alloc::Global;

/// The greatest clock, in milliseconds.
const MAX_CLOCK: u64 = 2_147_483_647_999;

/// How many segments a step runs at most, and how far apart gaps are at most.
const MAX_TICKS: u32 = 1_000_000;

/// How many gaps a line has at most.
const MAX_GAPS: usize = 16;

/// The step of this word and these fields.
#[tactic(auto, unfolding(crate::specs::Forms::step_of))]
pub fn parse_step(alloc: Global, first: &str, rest: &[Word]) -> Field<Step>
    ensures { Gives result (step_of first.now rest.now) }
{
    match first {
        "clock" => parse_clock(rest),
        "say" => parse_say(alloc, rest),
        "touch" => parse_touch(alloc, rest),
        "changed" => parse_changed(rest),
        "rez" => parse_rez(rest),
        "go" => parse_go(rest),
        "run" => parse_run(rest),
        "pause" => parse_pause(alloc, rest),
        "cross" => parse_cross(rest),
        _ => Err(BAD_LINE),
    }
}

fn parse_clock(words: &[Word]) -> Field<Step>
    ensures { Gives result (clock_of words.now) }
{
    match words {
        [time] => Ok(Step::Clock(natural(time, MAX_CLOCK)?)),
        _ => Err(BAD_LINE),
    }
}

fn parse_say(alloc: Global, words: &[Word]) -> Field<Step>
    ensures { Gives result (say_of words.now) }
{
    match words {
        [channel, speaker, id, text] => Ok(Step::Say(
            integer(channel)?,
            name(speaker)?,
            key(alloc, id)?,
            free(text)?,
        )),
        _ => Err(BAD_LINE),
    }
}

fn parse_touch(alloc: Global, words: &[Word]) -> Field<Step>
    ensures { Gives result (touch_of words.now) }
{
    match words {
        [object, link, id, toucher] => Ok(Step::Touch(
            parse_number(object)?,
            parse_number(link)?,
            key(alloc, id)?,
            name(toucher)?,
        )),
        _ => Err(BAD_LINE),
    }
}

fn parse_changed(words: &[Word]) -> Field<Step>
    ensures { Gives result (changed_of words.now) }
{
    match words {
        [object, flags] => Ok(Step::Changed(parse_number(object)?, integer(flags)?)),
        _ => Err(BAD_LINE),
    }
}

fn parse_rez(words: &[Word]) -> Field<Step>
    ensures { Gives result (rez_of words.now) }
{
    match words {
        [object, n] => Ok(Step::Rez(parse_number(object)?, integer(n)?)),
        _ => Err(BAD_LINE),
    }
}

fn parse_go(words: &[Word]) -> Field<Step>
    ensures { Gives result (go_of words.now) }
{
    match words {
        [script, ticks] => Ok(Step::Go(parse_number(script)?, short(ticks, MAX_TICKS)?)),
        _ => Err(BAD_LINE),
    }
}

fn parse_run(words: &[Word]) -> Field<Step>
    ensures { Gives result (run_of words.now) }
{
    match words {
        [ticks] => Ok(Step::Run(short(ticks, MAX_TICKS)?)),
        _ => Err(BAD_LINE),
    }
}

fn parse_cross(words: &[Word]) -> Field<Step>
    ensures { Gives result (cross_of words.now) }
{
    match words {
        [object, region] => Ok(Step::Cross(parse_number(object)?, name(region)?)),
        _ => Err(BAD_LINE),
    }
}

// The number of an object, a script or a prim.
fn parse_number(word: &Word) -> Field<u32>
    ensures { Gives result (natural_of 4294967295 word.now) }
{
    short(word, u32::MAX)
}

fn parse_pause(alloc: Global, words: &[Word]) -> Field<Step>
    ensures { Gives result (pause_of words.now) }
{
    match words {
        [word] if short(word, MAX_TICKS)? == 0 => Ok(Step::Pause(Sequence::new(alloc))),
        _ => Ok(Step::Pause(parse_gaps(alloc, words)?)),
    }
}

fn parse_gaps(alloc: Global, words: &[Word]) -> Field<Gaps>
    ensures { Gives result (gaps_of words.now) }
{
    if words.is_empty() || words.len() > MAX_GAPS {
        return Err(BAD_LINE);
    }
    let mut gaps = Sequence::new(alloc);
    let mut rest = words;
    'gaps: while let [word, more @ ..] = rest {
        gaps.push(parse_gap(word)?)?;
        rest = more;
    }
    Ok(gaps)
}

// A gap is at least 1.
fn parse_gap(word: &Word) -> Field<u32>
    ensures { Gives result (gap_of word.now) }
{
    match short(word, MAX_TICKS)? {
        0 => Err(BAD_LINE),
        gap => Ok(gap),
    }
}
