//! What a script has yet to receive, appended as lines.

ghost use Rattle.std.specs.Prelude.{◌≡◌, ◌++◌, ◌∷◌, [], OnOk};
ghost use Rattle.std.specs.List.{flat_map};
ghost use Rattle.lsl_text.specs.Number.{decimal_of};
ghost use Rattle.lsl_lines.specs.Journal.{spaced, text_word};
ghost use Rattle.lsl_view.specs.State.{active_word, event_line, event_words, line, line_of, listen_line, sleeps_words, timer_words};
ghost use Rattle.lsl_view.specs.StateParts.{running_timer, sleep_until};

use crate::values::push_values;
use crate::words::{end_line, push_number, push_text, push_word};
use lsl_post::{Event, Listen, Listens, Queue, ScriptParts, Timer};
use lsl_table::event_name;
use lsl_text::{NoMemory, push_decimal};

/// Appends a line for each event that waits, for each listen, for a timer that runs, and for a sleep that isn't over at
/// this reading of the clock.
pub fn push_mailbox(out: &mut Vec<u8>, script: &ScriptParts, clock: u64) -> Result<(), NoMemory>
    ensures { OnOk result (out.new.items ≡ out.old.items ++ (flat_map event_line script.now.queue
        ++ flat_map listen_line script.now.listens.list ++ line_of timer_words (running_timer script.now.timer)
        ++ line_of sleeps_words (sleep_until clock script.now.wake))) }
{
    push_queue(out, &script.queue)?;
    push_listens(out, &script.listens)?;
    push_timer(out, script.timer)?;
    push_sleep(out, clock, script.wake)
}

/// Appends a word and an event as a line.
pub fn push_event(out: &mut Vec<u8>, word: &str, event: &Event) -> Result<(), NoMemory>
    ensures { OnOk result (out.new.items ≡ out.old.items ++ line (event_words word.now event.now)) }
{
    out.extend_from_slice(word.as_bytes())?;
    push_word(out, event_name(event.id))?;
    push_values(out, event.args.as_slice())?;
    end_line(out)
}

fn push_queue(out: &mut Vec<u8>, queue: &Queue) -> Result<(), NoMemory>
    ensures { OnOk result (out.new.items ≡ out.old.items ++ flat_map event_line queue.now) }
{
    for place in 0..queue.count() {
        push_event(out, "event", queue.event(place))?;
    }
    Ok(())
}

fn push_listens(out: &mut Vec<u8>, listens: &Listens) -> Result<(), NoMemory>
    ensures { OnOk result (out.new.items ≡ out.old.items ++ flat_map listen_line listens.now.list) }
{
    for place in 0..listens.count() {
        push_listen(out, listens.listen(place))?;
    }
    Ok(())
}

fn push_listen(out: &mut Vec<u8>, listen: &Listen) -> Result<(), NoMemory>
    ensures { OnOk result (out.new.items ≡ out.old.items ++ listen_line listen.now) }
{
    out.extend_from_slice(b"listen")?;
    push_channel(out, listen)?;
    push_heard(out, listen)
}

// A listen's number, whether it is on, and its channel, as words of its line.
fn push_channel(out: &mut Vec<u8>, listen: &Listen) -> Result<(), NoMemory>
    ensures { OnOk result (out.new.items ≡ out.old.items ++ flat_map spaced (decimal_of listen.now.number
        ∷ active_word listen.now.active ∷ decimal_of listen.now.channel ∷ [])) }
{
    push_integer(out, listen.number)?;
    push_word(out, active_word(listen.active))?;
    push_integer(out, listen.channel)
}

// What a listen hears, as the last words of its line.
fn push_heard(out: &mut Vec<u8>, listen: &Listen) -> Result<(), NoMemory>
    ensures { OnOk result (out.new.items ≡ out.old.items ++ (flat_map spaced (text_word listen.now.name
        ∷ text_word listen.now.id ∷ text_word listen.now.message ∷ []) ++ 10 ∷ [])) }
{
    push_text(out, &listen.name)?;
    push_text(out, &listen.id)?;
    push_text(out, &listen.message)?;
    end_line(out)
}

fn active_word(active: bool) -> &'static str
    ensures { result.now ≡ active_word active }
{
    if active { "on" } else { "off" }
}

fn push_integer(out: &mut Vec<u8>, n: i32) -> Result<(), NoMemory>
    ensures { OnOk result (out.new.items ≡ out.old.items ++ spaced (decimal_of n)) }
{
    out.push(b' ')?;
    push_decimal(out, i64::from(n))
}

#[tactic(auto, using(std::proofs::lemmas::Bool::Decides::nat_tests))]
fn push_timer(out: &mut Vec<u8>, timer: Timer) -> Result<(), NoMemory>
    ensures { OnOk result (out.new.items ≡ out.old.items ++ line_of timer_words (running_timer timer)) }
{
    if timer.period == 0 {
        return Ok(());
    }
    out.extend_from_slice(b"timer")?;
    push_number(out, u64::from(timer.period))?;
    push_number(out, timer.due)?;
    end_line(out)
}

#[tactic(auto, using(std::proofs::lemmas::Bool::Decides::nat_tests))]
fn push_sleep(out: &mut Vec<u8>, clock: u64, wake: u64) -> Result<(), NoMemory>
    ensures { OnOk result (out.new.items ≡ out.old.items ++ line_of sleeps_words (sleep_until clock wake)) }
{
    if wake <= clock {
        return Ok(());
    }
    out.extend_from_slice(b"sleeps")?;
    push_number(out, wake)?;
    end_line(out)
}
