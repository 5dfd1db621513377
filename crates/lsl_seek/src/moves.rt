//! The words of a move.

use crate::aim::{Aim, Op, Test, Value, integer};
use crate::bytes::number;
use crate::faults::{NO_MOVE, SeekFault};
use lsl_text::Refusal;

/// A move: whether it goes back, and where it leads.
#[derive(Drop)]
pub struct Move<'a> {
    pub is_back: bool,
    pub to: To<'a>,
}

/// Where a move leads.
#[derive(Drop)]
pub enum To<'a> {
    /// To the moment of this number.
    Moment(u32),
    /// To the first stop at this step and segment or later.
    Place(u32, u32),
    /// To the next stop of the script.
    Step,
    /// To the next stop of the script that isn't within a call of the call in hand.
    Next,
    /// To the next stop of the script that isn't within a call of the call in hand's caller.
    Finish,
    Segment,
    Turn,
    Handler,
    Until(Aim<'a>),
}

impl<'a> Move<'a> {
    /// The move of these words.
    pub fn read(words: &'a [String]) -> Result<Move<'a>, Refusal<SeekFault>> {
        match parse(words) {
            Some(it) => Ok(it),
            None => Err(NO_MOVE),
        }
    }
}

fn parse<'a>(words: &'a [String]) -> Option<Move<'a>> {
    let (first, rest) = words.split_first()?;
    let first = first.as_bytes();
    match (first, rest) {
        (b"to", [n]) => ahead(To::Moment(number(n.as_bytes())?)),
        (b"at", [step, segment]) => {
            ahead(To::Place(number(step.as_bytes())?, number(segment.as_bytes())?))
        }
        (b"step", []) => ahead(To::Step),
        (b"back", []) => back(To::Step),
        (b"next", []) => ahead(To::Next),
        (b"reverse-next", []) => back(To::Next),
        (b"finish", []) => ahead(To::Finish),
        (b"reverse-finish", []) => back(To::Finish),
        (b"segment", []) => ahead(To::Segment),
        (b"reverse-segment", []) => back(To::Segment),
        (b"turn", []) => ahead(To::Turn),
        (b"reverse-turn", []) => back(To::Turn),
        (b"handler", []) => ahead(To::Handler),
        (b"reverse-handler", []) => back(To::Handler),
        (b"until", _) => ahead(To::Until(parse_condition(rest)?)),
        (b"reverse-until", _) => back(To::Until(parse_condition(rest)?)),
        _ => None,
    }
}

fn ahead(to: To) -> Option<Move> {
    Some(Move { is_back: false, to })
}

fn back(to: To) -> Option<Move> {
    Some(Move { is_back: true, to })
}

fn parse_condition<'a>(words: &'a [String]) -> Option<Aim<'a>> {
    let (first, rest) = words.split_first()?;
    let first = first.as_bytes();
    match (first, rest) {
        (b"line", [n]) => Some(Aim::Line(None, number(n.as_bytes())?)),
        (b"line", [file, n]) => Some(Aim::Line(Some(file.as_bytes()), number(n.as_bytes())?)),
        (b"routine", [name]) => Some(Aim::Routine(name.as_bytes())),
        (b"if", [name, op, value]) => Some(Aim::If(Test {
            name: name.as_bytes(),
            op: parse_op(op.as_bytes())?,
            value: parse_value(value.as_bytes())?,
        })),
        (b"changes", [name]) => Some(Aim::Changes(name.as_bytes())),
        (b"event", [name]) => Some(Aim::Event(name.as_bytes(), None)),
        (b"event", [name, script]) => Some(Aim::Event(
            name.as_bytes(),
            Some(number(script.as_bytes())?),
        )),
        (b"said", [text]) => Some(Aim::Said(text.as_bytes())),
        (b"fault", []) => Some(Aim::Fault),
        _ => None,
    }
}

fn parse_op(word: &[u8]) -> Option<Op> {
    match word {
        b"==" => Some(Op::Equal),
        b"!=" => Some(Op::Other),
        b"<" => Some(Op::Less),
        b"<=" => Some(Op::AtMost),
        b">" => Some(Op::Greater),
        b">=" => Some(Op::AtLeast),
        _ => None,
    }
}

fn parse_value(word: &[u8]) -> Option<Value> {
    match word {
        [b'"', inner @ .., b'"'] => Some(Value::Text(inner)),
        [b'[', .., b']'] => Some(Value::Text(word)),
        _ => Some(Value::Integer(integer(word)?)),
    }
}
