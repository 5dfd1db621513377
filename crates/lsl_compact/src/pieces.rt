//! A list of which long parts are the same words again and again. Such a part takes eight bytes.

ghost use Rattle.std.specs.Prelude.{◌≡◌, ◌≤◌, ◌<◌, ◌+◌, ◌++◌, ◌∷◌, ℕ, List, [], drop, length, option_copied, slice_get, take, IfOk, MatchOption, OnErr, OnOk, Some};
ghost use Rattle.lsl_compact.specs.Pieces.{worded};
ghost use Rattle.lsl_compact.specs.declared.pieces.Piece.{Piece as Part};
ghost use Rattle.lsl_compact.specs.Places.{IsPlaceIn};

use lsl_text::NoMemory;
use std::alloc::{AllocError, Global};
use std::marker::Model;

/// A run of elements of a pool: the first, and how many.
#[derive(Clone, Copy)]
struct Piece {
    from: u32,
    count: u32,
}

/// A list. Its first elements lie one after another, the others in pieces of a pool.
#[derive(Drop)]
pub struct Pieces<T> {
    first: Vec<T>,
    pool: Vec<T>,
    pieces: Vec<Piece>,
}

impl<T> Model for Pieces<T> {
    ghost use Rattle.std.specs.Prelude.{List, ◌++◌, length};
    ghost use Rattle.lsl_compact.specs.Pieces.{ArePieces, joined};

    ghost Value = { List T };

    ghost view = { λ p. p.first.items ++ joined p.pool.items p.pieces.items };

    ghost invariant = { λ p. ArePieces (length p.pool.items) p.pieces.items };
}

impl<T> Pieces<T> {
    /// How many elements lie before the pieces. Takes no memory.
    pub fn first(&self) -> &[T]
        ensures { (rest : List T) × (self.now ≡ result.now ++ rest) }
    {
        self.first.as_slice()
    }

    /// The element at this place, if there is one. Takes no memory; walks the pieces before it.
    pub fn get(&self, place: usize) -> Option<&T>
        ensures { option_copied result ≡ slice_get self.now place }
    {
        let before = self.first.len();
        if place < before {
            return self.first.get(place);
        }
        match place_in(self.pieces.as_slice(), place - before) {
            Some(number) => element(self.pool.as_slice(), number),
            None => None,
        }
    }
}

// The element of this number, if there is one.
fn element<T>(list: &[T], number: usize) -> Option<&T>
    ensures { option_copied result ≡ slice_get list.now number }
{
    list.get(number)
}

// The place in the pool of this place in the pieces.
fn place_in(pieces: &[Piece], place: usize) -> Option<usize>
    ensures { IsPlaceIn pieces.now place result }
{
    let mut left = place;
    for piece in pieces {
        let count = piece.count as usize;
        if left < count {
            return Some(piece.from as usize + left);
        }
        left -= count;
    }
    None
}

/// A list that is being written, and the words of which it may repeat any.
#[derive(Drop)]
pub struct PiecesDraft<T> {
    first: Vec<T>,
    words: usize,
    pool: Vec<T>,
    pieces: Vec<Piece>,
}

impl<T> Model for PiecesDraft<T> {
    ghost use Rattle.std.specs.Prelude.{◌≤◌, ◌++◌, length, take};
    ghost use Rattle.lsl_compact.specs.Pieces.{ArePieces, Worded, joined, worded};

    ghost Value = { Worded T };

    ghost view = { λ p. worded (take p.words p.pool.items) (p.first.items ++ joined p.pool.items p.pieces.items) };

    ghost invariant = { λ p. (p.words ≤ length p.pool.items) × ArePieces (length p.pool.items) p.pieces.items };
}

impl<T> PiecesDraft<T> {
    /// The empty list, with these words. Takes no memory.
    pub fn new(alloc: Global, words: Vec<T>) -> PiecesDraft<T>
        ensures { result ≡ worded words.items [] }
    {
        PiecesDraft {
            first: Vec::new(alloc),
            words: words.len(),
            pool: words,
            pieces: Vec::new(alloc),
        }
    }

    /// Adds `count` words from this one on.
    pub fn repeat(&mut self, from: u32, count: u32) -> Result<(), NoMemory>
        requires { from + count ≤ length self.old.words }
        ensures repeated { OnOk result
            (self.new ≡ worded self.old.words (self.old.list ++ take count (drop from self.old.words))) }
        ensures unchanged { OnErr result (self.new ≡ self.old) }
    {
        self.pieces.push(Piece { from, count })?;
        Ok(())
    }

    /// The list. Takes no memory.
    pub fn finish(self) -> Pieces<T>
        ensures { result ≡ self.list }
    {
        let PiecesDraft {
            first,
            pool,
            pieces,
            ..
        } = self;
        Pieces {
            first,
            pool,
            pieces,
        }
    }
}

impl<T: Drop> PiecesDraft<T> {
    /// Adds an element.
    pub fn push(&mut self, element: T) -> Result<(), NoMemory>
        ensures pushed { OnOk result (self.new ≡ worded self.old.words (self.old.list ++ element ∷ [])) }
        ensures unchanged { OnErr result (self.new ≡ self.old) }
    {
        if self.pieces.is_empty() {
            self.first.push(element)?;
            return Ok(());
        }
        let Ok(from) = u32::try_from(self.pool.len()) else {
            return Err(AllocError);
        };
        self.pieces.reserve(1)?;
        self.pool.push(element)?;
        self.pieces.push_reserved(Piece { from, count: 1 });
        Ok(())
    }
}
