//! The words of a command, read by hand.
ghost use Rattle.std.specs.Prelude.{◌≡◌};
ghost use Rattle.lsl_top.specs.Words.{command_named, command_of, command_of_lossy, command_of_two, is_number_of, names_file, number_in};
ghost use Rattle.lsl_top.specs.Meant.{meant_by};

use crate::positions::Position;
use itoa::Buffer;

/// What the words ask for, with the file or the number that they name.
#[derive(Clone, Copy)]
pub enum Command<'a> {
    /// Runs the script of a file.
    Once(&'a str),
    /// Accepts the script of a file, or refuses it.
    Check(&'a str),
    /// Runs a world file.
    Replay(&'a str),
    /// Runs a world file, in which objects are handed over by notes.
    Lossy(&'a str),
    /// Runs a world file, and freezes the world to which its steps lead.
    Freeze(&'a str),
    /// Runs a world file, the second, from the frozen world of the first.
    Thaw(&'a str, &'a str),
    /// Shows where the scripts of a frozen world are in their code. The world is that of a world file, the second.
    View(&'a str, &'a str),
    /// Runs the world generated from a seed.
    Make(u32),
    /// Runs a world file up to a position, or to its end, and shows all that the world holds there. No words ask for
    /// it.
    State(Option<Position>, &'a str),
}

fn names_file(word: &str) -> bool
    ensures { result ≡ names_file word.now }
{
    match word.as_bytes() {
        [] => false,
        [first, ..] => *first != b'-',
    }
}

/// Whether a number is from 1 to 1,000,000, and the word its decimal digits.
fn is_number_of(word: &str, number: u32) -> bool
    ensures { result ≡ is_number_of word.now number }
{
    let mut digits = Buffer::new();
    number > 0 && number <= 1_000_000 && word == digits.format(number)
}

/// The number of a word, if it has one.
fn number_in(word: &str) -> Option<u32>
    ensures { number_in word.now ≡ result }
{
    match word.parse::<u32>() {
        Ok(number) => {
            if is_number_of(word, number) {
                Some(number)
            } else {
                None
            }
        }
        Err(_) => None,
    }
}

fn command_named<'a>(word: &str, file: &'a str) -> Option<Command<'a>>
    ensures { command_named word.now file.now ≡ meant_by result }
{
    match word {
        "once" => Some(Command::Once(file)),
        "check" => Some(Command::Check(file)),
        "replay" => Some(Command::Replay(file)),
        "freeze" => Some(Command::Freeze(file)),
        "make" => Some(Command::Make(number_in(file)?)),
        _ => None,
    }
}

fn command_of_two<'a>(word: &str, first: &'a str, second: &'a str) -> Option<Command<'a>>
    ensures { command_of_two word.now first.now second.now ≡ meant_by result }
{
    match word {
        "thaw" => Some(Command::Thaw(first, second)),
        "view" => Some(Command::View(first, second)),
        _ => None,
    }
}

fn command_of_lossy<'a>(word: &str, file: &'a str) -> Option<Command<'a>>
    ensures { command_of_lossy word.now file.now ≡ meant_by result }
{
    match word {
        "replay" => Some(Command::Lossy(file)),
        _ => None,
    }
}

/// What the words ask for, or none where they aren't a command. Takes no memory.
pub fn parse_words(words: &[String]) -> Option<Command<'_>>
    ensures { command_of words.now ≡ meant_by result }
{
    match words {
        [word, file] if names_file(file.as_str()) => command_named(word.as_str(), file.as_str()),
        [word, flag, file] if flag.as_str() == "--lossy" && names_file(file.as_str()) => {
            command_of_lossy(word.as_str(), file.as_str())
        }
        [word, first, second] if names_file(first.as_str()) && names_file(second.as_str()) => {
            command_of_two(word.as_str(), first.as_str(), second.as_str())
        }
        _ => None,
    }
}
