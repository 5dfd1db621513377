//! A shelf whose files are in memory. It fails at the calls that are set to fail.
ghost use Rattle.std.specs.Prelude.{◌≡◌, ◌≤◌, ◌↔◌, ℕ, List, Some, length, position, IfOk, IsTrue, OnErr, IsErr};
ghost use Rattle.std.specs.Str.{bytes_eq};
ghost use Rattle.lsl_ports.specs.Counts.{Rose, NoneFell, raised};
ghost use Rattle.lsl_ports.specs.Shelf.{Copies, Reads};
ghost use Rattle.lsl_ports.specs.Stored.{NamedBytes, ShelfState, after_read, fails_at, fails_next, faults_of, files_of, new_shelf, place_of};

use crate::{Failed, Shelf};
use std::alloc::{AllocError, Global};
use std::marker::Model;

/// A file of a shelf in memory.
#[derive(Drop)]
pub struct StoredFile {
    name: String,
    bytes: Vec<u8>,
}

impl Model for StoredFile {
    ghost use Rattle.std.specs.Prelude.{string_bytes};
    ghost use Rattle.lsl_ports.specs.Stored.{NamedBytes};

    ghost Value = { NamedBytes };

    ghost view = { λ file. record { name = string_bytes file.name; bytes = file.bytes.items } };
}

impl StoredFile {
    /// A copy of the name and the bytes, for which it takes memory.
    pub fn new(alloc: Global, name: &str, bytes: &[u8]) -> Result<StoredFile, AllocError>
        ensures { IfOk result (λ file. file ≡ record { name = name.now; bytes = bytes.now }) }
    {
        let name = String::from_str(alloc, name)?;
        let bytes = Vec::from_slice(alloc, bytes)?;
        Ok(StoredFile { name, bytes })
    }

    /// Whether this is the file's name.
    pub fn is_named(&self, name: &str) -> bool
        ensures { result ≡ bytes_eq self.now.name name.now }
    {
        self.name.as_str() == name
    }

    /// Copies bytes from `place` on into the piece, and returns how many.
    fn copy_into(&self, place: u64, piece: &mut [u8]) -> usize
        ensures within { result ≤ length piece.new }
        ensures copied { Copies self.now.bytes place piece.new result }
    {
        copy_from(self.bytes.as_slice(), place as usize, piece)
    }
}

fn copy_from(file: &[u8], place: usize, piece: &mut [u8]) -> usize
    ensures within { result ≤ length piece.new }
    ensures copied { Copies file.now place piece.new result }
{
    let start = place.min(file.len());
    let count = piece.len().min(file.len() - start);
    piece[..count].copy_from_slice(&file[start..start + count]);
    count
}

fn position_of(files: &[StoredFile], name: &str) -> Option<usize>
    ensures { result ≡ position (λ file. bytes_eq file.name name.now) files.now }
{
    files.iter().position(|file| file.is_named(name))
}

/// The place of the first file of that name, or how many files there are.
fn find_file(files: &[StoredFile], name: &str) -> usize
    ensures place { result ≡ place_of files.now name.now }
    ensures within { result ≤ length files.now }
{
    position_of(files, name).unwrap_or(files.len())
}

/// A shelf in memory, which reports what it holds. Calls are counted from 1, also one with an empty piece.
///
/// The calls whose numbers it was given fail. It has one count of faults for each file and one for all other names
/// together. A count rises at a call that fails and at a name that the shelf doesn't hold. Of two files of one name the
/// first counts.
#[derive(Drop)]
pub struct MemoryShelf {
    files: Vec<StoredFile>,
    faults: Vec<u64>,
    failing: Vec<u64>,
    calls: u64,
}

impl Model for MemoryShelf {
    ghost use Rattle.std.specs.Prelude.{◌≡◌, ◌+◌, length};
    ghost use Rattle.lsl_ports.specs.Stored.{ShelfState};

    ghost Value = { ShelfState };

    ghost view = { λ s. record {
      files = s.files.items;
      faults = s.faults.items;
      failing =
          s.failing.items;
      calls = s.calls;
    } };

    ghost invariant = { λ s. length s.faults.items ≡ length s.files.items + 1 };
}

impl MemoryShelf {
    /// A shelf of these files, whose calls with the numbers in `failing` fail. It takes memory
    /// for the counts.
    pub fn new(
        alloc: Global,
        files: Vec<StoredFile>,
        failing: Vec<u64>,
    ) -> Result<MemoryShelf, AllocError>
        ensures { IfOk result (λ shelf. shelf ≡ new_shelf files.items failing.items) }
    {
        let faults = vec![in alloc; 0; files.len() + 1]?;
        Ok(MemoryShelf {
            files,
            faults,
            failing,
            calls: 0,
        })
    }

    /// How many calls for that name failed.
    pub fn fault_count(&self, name: &str) -> u64
        ensures { result ≡ faults_of self.now name.now }
    {
        self.faults[find_file(self.files.as_slice(), name)]
    }
}

impl Shelf for MemoryShelf {
    ghost held = { λ s. Some (files_of s.files) };

    ghost faults = { faults_of };

    fn read(&mut self, name: &str, place: u64, piece: &mut [u8]) -> Result<usize, Failed>
        ensures within { IfOk result (λ count. count ≤ length piece.new) }
        ensures ok { IfOk result (λ count. Reads (Some (files_of self.old.files)) name.now place piece.new count) }
        ensures unchanged { Some (files_of self.new.files) ≡ Some (files_of self.old.files) }
        ensures err { OnErr result (Rose (faults_of self.old name.now) (faults_of self.new name.now)) }
        ensures counted { NoneFell (faults_of self.old) (faults_of self.new) }
        ensures fails { IsErr result ↔ IsTrue (fails_at self.old name.now) }
        ensures after { self.new ≡ after_read self.old name.now }
    {
        let number = find_file(self.files.as_slice(), name);
        self.calls = self.calls.saturating_add(1);
        if self.failing.contains(&self.calls) || number == self.files.len() {
            self.faults[number] = self.faults[number].saturating_add(1);
            return Err(Failed);
        }
        let file = &self.files[number];
        Ok(file.copy_into(place, piece))
    }
}
