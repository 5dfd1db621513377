//! Tokens by their places. A place past the last token has none.

use lsl_lex::{Sort, Token};
use lsl_value::Kind;

/// Tokens, or bytes, from one place up to another.
#[derive(Clone, Copy, Debug)]
pub struct Part {
    pub from: usize,
    pub to: usize,
}

impl Part {
    pub fn is_empty(&self) -> bool {
        self.to <= self.from
    }

    /// What lies there of a list; a part past the list's end is empty.
    pub fn of<'a, T>(&self, list: &'a [T]) -> &'a [T] {
        let to = self.to.min(list.len());
        &list[self.from.min(to)..to]
    }
}

/// The sort of the token at a place.
pub fn sort_at(tokens: &[Token], at: usize) -> Option<&Sort> {
    match tokens.get(at) {
        Some(token) => Some(&token.sort),
        None => None,
    }
}

/// The bytes of the name at a place; none where no name is there.
pub fn name_at(tokens: &[Token], at: usize) -> &[u8] {
    match sort_at(tokens, at) {
        Some(Sort::Name(text)) => text.bytes(),
        Some(Sort::DefaultWord) => b"default",
        _ => b"",
    }
}

/// The line of the token at a place.
pub fn line_at(tokens: &[Token], at: usize) -> u32 {
    tokens.get(at).map_or(0, |token| token.span.line)
}

/// The byte where the token at a place begins; none is after the last.
pub fn start_at(tokens: &[Token], at: usize) -> usize {
    tokens.get(at).map_or(0, |token| token.span.start as usize)
}

/// The byte after the token at a place.
pub fn end_at(tokens: &[Token], at: usize) -> usize {
    tokens.get(at).map_or(0, |token| token.span.end as usize)
}

/// The kind of variable that the word at a place declares.
pub fn kind_at(tokens: &[Token], at: usize) -> Option<Kind> {
    match sort_at(tokens, at)? {
        Sort::IntegerWord => Some(Kind::Int),
        Sort::StringWord => Some(Kind::Str),
        Sort::KeyWord => Some(Kind::Key),
        Sort::ListWord => Some(Kind::List),
        _ => None,
    }
}

/// The place of the first semicolon from a place on.
pub fn semicolon_from(tokens: &[Token], from: usize) -> usize {
    for at in from..tokens.len() {
        if matches!(sort_at(tokens, at), Some(Sort::Semicolon)) {
            return at;
        }
    }
    tokens.len()
}

/// The place of the parenthesis that closes the one at a place.
pub fn close_of(tokens: &[Token], open: usize) -> usize {
    let mut depth: usize = 0;
    for at in open..tokens.len() {
        depth = depth_after(depth, sort_at(tokens, at));
        if depth == 0 {
            return at;
        }
    }
    tokens.len()
}

/// How many parentheses and brackets are open after a token.
pub fn depth_after(depth: usize, sort: Option<&Sort>) -> usize {
    match sort {
        Some(Sort::ParenOpen | Sort::BracketOpen) => depth.saturating_add(1),
        Some(Sort::ParenClose | Sort::BracketClose) => depth.saturating_sub(1),
        _ => depth,
    }
}
