//! Tokens in a compact form: their sorts in one line, with their places where they are asked.

use crate::shown::Shown;
use lsl_lex::{LexFault, Sort, Token, Tokens, lex};
use lsl_text::{Refusal, Span};
use std::alloc::AllocError;

/// A name as itself, a string in brackets, an integer in decimal, and any other sort by its name.
fn print_sort(shown: &mut Shown, sort: &Sort) {
    match sort {
        Sort::Name(text) => shown.add(text.as_str()),
        Sort::Str(text) => print_string(shown, text.as_str()),
        Sort::Int(n) => shown.put(n),
        sort => shown.debug(sort),
    }
}

fn print_string(shown: &mut Shown, text: &str) {
    shown.add("[");
    shown.add(text);
    shown.add("]");
}

fn print_token(shown: &mut Shown, token: &Token, places: bool) {
    print_sort(shown, &token.sort);
    if places {
        shown.add(" ");
        shown.put(&token.span.start);
        shown.add("-");
        shown.put(&token.span.end);
        print_place(shown, token.span);
    }
    shown.add(", ");
}

fn print_place(shown: &mut Shown, span: Span) {
    shown.add(" ");
    shown.put(&span.line);
    shown.add(":");
    shown.put(&span.col);
}

fn print_tokens(shown: &mut Shown, tokens: &Tokens, places: bool) {
    for token in tokens.list.as_slice() {
        print_token(shown, token, places);
    }
    print_end(shown, tokens.end);
}

fn print_end(shown: &mut Shown, end: Span) {
    shown.put(&end.start);
    print_place(shown, end);
    shown.add("\n");
}

fn print_fault(shown: &mut Shown, fault: LexFault) {
    shown.debug(&fault.kind);
    shown.add(" ");
    print_end(shown, fault.span);
}

/// Shows the tokens of a text, or its first fault; false where it has one.
pub fn show_tokens(shown: &mut Shown, text: &[u8], places: bool) -> Result<bool, AllocError> {
    match lex(shown.alloc(), text) {
        Ok(tokens) => {
            print_tokens(shown, &tokens, places);
            Ok(true)
        }
        Err(Refusal::Fault(fault)) => {
            print_fault(shown, fault);
            Ok(false)
        }
        Err(Refusal::NoMemory) => Err(AllocError),
    }
}
