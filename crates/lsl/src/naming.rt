//! The file that a status is about.

ghost use Rattle.std.specs.Prelude.{◌≡◌, option_map};
ghost use Rattle.lsl.specs.Notice.{file_in, one_of_two};

use lsl_top::Status;

/// The file that the words name and a status is about.
pub fn named_file(status: Status, words: &[String]) -> Option<&str>
    ensures { file_in status words.now ≡ option_map (λ file. file.now) result }
{
    match words {
        [word, _] if word.as_str() == "make" => None,
        [_, file] => Some(file.as_str()),
        [_, frozen, world] => Some(one_of_two(status, frozen.as_str(), world.as_str())),
        _ => None,
    }
}

/// Of a frozen file and one of a world, the one that a status is about.
fn one_of_two<'a>(status: Status, frozen: &'a str, world: &'a str) -> &'a str
    ensures { result.now ≡ one_of_two status frozen.now world.now }
{
    match status {
        Status::BadImage => frozen,
        _ => world,
    }
}
