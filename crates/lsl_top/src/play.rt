//! What is played: a world, and the contents of the files that it names.
ghost use Rattle.std.specs.Prelude.{◌≡◌, length};

use crate::modes::Mode;
use lsl_lines::WorldFile;

/// A world and how it is played, the names of the files of its scripts and of its notecards, and what was read of these
/// and of the frozen file.
#[derive(Drop)]
pub struct Play<'a> {
    pub mode: Mode<'a>,
    pub names: &'a [&'a str],
    pub cards: &'a [&'a str],
    pub world: &'a WorldFile,
    pub texts: Vec<Vec<u8>>,
    pub notes: Vec<Vec<u8>>,
    pub frozen: Vec<u8>,
    ghost names_fit: { length names.now ≡ length world.now.files },
    ghost cards_fit: { length cards.now ≡ length world.now.cards },
    ghost texts_fit: { length texts.items ≡ length names.now },
    ghost notes_fit: { length notes.items ≡ length cards.now },
}
