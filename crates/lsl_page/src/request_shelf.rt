//! The files of a request, as a shelf.
ghost use Rattle.std.specs.Prelude.{◌≡◌, ◌≤◌, All, IfErr, IfOk, IsTrue, OnErr, Some, length, option_map};
ghost use Rattle.lsl_ports.specs.Counts.{NoneFell, Rose};
ghost use Rattle.lsl_ports.specs.Shelf.{Copies, Reads};
ghost use Rattle.lsl_page.specs.Request.{files_in, is_in};
ghost use Rattle.lsl_page.specs.Faults.{faults_in};

use crate::place::Place;
use crate::words::Refused;
use lsl_ports::{Failed, Shelf};

/// The files of a request, which are read in place among its bytes.
///
/// Of two files of one name the first counts. A name without a file is a fault, and nothing else is.
#[derive(Clone, Copy, Drop)]
pub struct RequestShelf<'a> {
    bytes: &'a [u8],
    places: &'a [Place],
    faults: u64,
}

impl<'a> RequestShelf<'a> {
    pub fn new(bytes: &'a [u8], places: &'a [Place]) -> RequestShelf<'a>
        ensures bytes { result.bytes.now ≡ bytes.now }
        ensures places { result.places.now ≡ places.now }
        ensures faults { result.faults ≡ 0 }
    {
        RequestShelf {
            bytes,
            places,
            faults: 0,
        }
    }

    /// Whether all places lie within the bytes: otherwise the request isn't in its form.
    pub fn check(&self) -> Result<(), Refused>
        ensures ok { IfOk result (λ _. All (λ p. IsTrue (is_in self.now.bytes.now p)) self.now.places.now) }
        ensures err { OnErr result (¬ All (λ p. IsTrue (is_in self.now.bytes.now p)) self.now.places.now) }
        ensures form { IfErr result (λ refused. refused ≡ Refused.NotInForm) }
    {
        let bytes = self.bytes;
        if self.places.iter().all(|place| place.is_in(bytes)) {
            Ok(())
        } else {
            Err(Refused::NotInForm)
        }
    }

    /// The text of a file, or none if no file has the name. It takes no memory.
    pub fn text_of(&self, name: &str) -> Option<&'a [u8]>
        ensures { option_map (λ text. text.now) result ≡ files_in self.now.bytes.now self.now.places.now name.now }
    {
        let bytes = self.bytes;
        let place = self
            .places
            .iter()
            .find(|place| place.is_named(bytes, name))?;
        Some(place.text(bytes))
    }
}

/// Copies bytes from `place` on into the piece, and returns how many.
fn copy_from(text: &[u8], place: u64, piece: &mut [u8]) -> usize
    ensures within { result ≤ length piece.new }
    ensures copied { Copies text.now place piece.new result }
{
    let rest = &text[(place as usize).min(text.len())..];
    let count = rest.len().min(piece.len());
    piece[..count].copy_from_slice(&rest[..count]);
    count
}

impl Shelf for RequestShelf<'_> {
    ghost held = { λ s. Some (files_in s.bytes.now s.places.now) };

    ghost faults = { λ s. faults_in (files_in s.bytes.now s.places.now) s.faults };

    fn read(&mut self, name: &str, place: u64, piece: &mut [u8]) -> Result<usize, Failed> {
        match self.text_of(name) {
            Some(text) => Ok(copy_from(text, place, piece)),
            None => {
                self.faults = self.faults.saturating_add(1);
                Err(Failed)
            }
        }
    }
}
