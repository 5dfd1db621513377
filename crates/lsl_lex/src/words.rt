//! The words that are tokens of their own. The length of a name leaves few candidates.

ghost use Rattle.std.specs.Prelude.{◌≡◌};
ghost use Rattle.lsl_lex.specs.Reading.{row_of, words_of};
ghost use Rattle.lsl_lex.specs.Tokens.{words};

use crate::token_types::Sort;

/// The word that these bytes are, if they are one.
pub fn word(name: &[u8]) -> Option<Sort>
    ensures { result ≡ row_of words name.now }
{
    match name.len() {
        2 => word_of_two(name),
        3 => word_of_three(name),
        4 => word_of_four(name),
        5 => word_of_five(name),
        6 => word_of_six(name),
        7 => word_of_seven(name),
        8 => word_of_eight(name),
        10 => word_of_ten(name),
        _ => None,
    }
}

fn word_of_two(name: &[u8]) -> Option<Sort>
    ensures { result ≡ row_of (words_of 2) name.now }
{
    match name {
        b"if" => Some(Sort::IfWord),
        b"do" => Some(Sort::DoWord),
        _ => None,
    }
}

fn word_of_three(name: &[u8]) -> Option<Sort>
    ensures { result ≡ row_of (words_of 3) name.now }
{
    match name {
        b"key" => Some(Sort::KeyWord),
        b"for" => Some(Sort::ForWord),
        _ => None,
    }
}

fn word_of_four(name: &[u8]) -> Option<Sort>
    ensures { result ≡ row_of (words_of 4) name.now }
{
    match name {
        b"list" => Some(Sort::ListWord),
        b"else" => Some(Sort::ElseWord),
        b"jump" => Some(Sort::JumpWord),
        _ => None,
    }
}

fn word_of_five(name: &[u8]) -> Option<Sort>
    ensures { result ≡ row_of (words_of 5) name.now }
{
    match name {
        b"float" => Some(Sort::FloatWord),
        b"state" => Some(Sort::StateWord),
        b"while" => Some(Sort::WhileWord),
        _ => None,
    }
}

fn word_of_six(name: &[u8]) -> Option<Sort>
    ensures { result ≡ row_of (words_of 6) name.now }
{
    match name {
        b"string" => Some(Sort::StringWord),
        b"vector" => Some(Sort::VectorWord),
        b"return" => Some(Sort::ReturnWord),
        _ => None,
    }
}

fn word_of_seven(name: &[u8]) -> Option<Sort>
    ensures { result ≡ row_of (words_of 7) name.now }
{
    match name {
        b"integer" => Some(Sort::IntegerWord),
        b"default" => Some(Sort::DefaultWord),
        _ => None,
    }
}

fn word_of_eight(name: &[u8]) -> Option<Sort>
    ensures { result ≡ row_of (words_of 8) name.now }
{
    match name {
        b"rotation" => Some(Sort::RotationWord),
        _ => None,
    }
}

fn word_of_ten(name: &[u8]) -> Option<Sort>
    ensures { result ≡ row_of (words_of 10) name.now }
{
    match name {
        b"quaternion" => Some(Sort::QuaternionWord),
        _ => None,
    }
}
