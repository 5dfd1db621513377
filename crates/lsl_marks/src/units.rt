//! A script's file, and its copy.

use crate::markers::Marker;
use crate::statements::Outline;
use crate::tiers::Tier;
use crate::writer::{Source, marked_copy};
use lsl_lex::{Token, Tokens, lex};
use lsl_text::{NoMemory, Refusal};
use std::alloc::{AllocError, Global};

/// How many bytes a script has at most.
pub const MAX_SCRIPT_BYTES: usize = 65_536;

/// A script's file: its name, its text and its parts, and what its copy reports.
#[derive(Drop)]
pub struct Unit {
    pub name: Vec<u8>,
    pub text: Vec<u8>,
    pub outline: Outline,
    pub tier: Tier,
    tokens: Option<Tokens>,
}

impl Unit {
    /// The tokens; none of a text that isn't one.
    pub fn tokens(&self) -> &[Token] {
        match &self.tokens {
            Some(tokens) => tokens.list.as_slice(),
            None => &[],
        }
    }

    /// The unit of a file. It takes memory for its tokens and parts.
    pub fn new(alloc: Global, name: &[u8], text: Vec<u8>) -> Result<Unit, NoMemory> {
        let tokens = match lex(alloc, text.as_slice()) {
            Ok(tokens) => Some(tokens),
            Err(Refusal::Fault(_)) => None,
            Err(Refusal::NoMemory) => return Err(AllocError),
        };
        let outline = match &tokens {
            Some(tokens) => Outline::find(alloc, tokens.list.as_slice())?,
            None => Outline::find(alloc, &[])?,
        };
        Ok(Unit {
            name: Vec::from_slice(alloc, name)?,
            text,
            outline,
            tier: Tier::All,
            tokens,
        })
    }

    /// The copy of the script, which is the unit at this place. Adds its markers, which say what begins with `mark`.
    pub fn copy(
        &self,
        alloc: Global,
        place: usize,
        mark: &[u8],
        markers: &mut Vec<Marker>,
    ) -> Result<Vec<u8>, NoMemory> {
        let source = Source {
            unit: place,
            text: self.text.as_slice(),
            tokens: self.tokens(),
            outline: &self.outline,
            mark,
            tier: self.tier,
        };
        marked_copy(alloc, &source, markers)
    }
}
