//! The bytes that a sink took, for proofs alone.
ghost use Rattle.std.specs.Prelude.{◌≡◌, ℕ, List, [], ◌++◌};
ghost use Rattle.std.specs.Borrow.{ftrue};

use std::marker::Model;

/// All bytes that were taken, in order. Only clauses and proofs read them: it takes no memory, and its calls do nothing
/// at run time.
#[derive(Drop)]
pub(crate) struct Taken {
    pub ghost bytes: { List ℕ },
}

impl Model for Taken {
    ghost also_owns = { λ _. ftrue };
}

/// Bytes that are taken next.
#[derive(Clone, Copy, Drop)]
pub(crate) struct Piece<'a> {
    pub bytes: &'a [u8],
}

impl Taken {
    pub(crate) fn nothing() -> Taken
        ensures { result.bytes ≡ [] }
    {
        Taken {}
    }

    #[inline(always)]
    pub(crate) fn and(&self, _piece: &Piece<'_>) -> Taken
        ensures { result.bytes ≡ self.now.bytes ++ _piece.now.bytes.now }
    {
        Taken {}
    }
}
