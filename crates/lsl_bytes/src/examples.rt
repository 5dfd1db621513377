//! Some values, and their bytes. Each example is a function whose clauses say it; it does nothing.

ghost use Rattle.std.specs.Prelude.{◌≡◌, [], ◌∷◌, codes, pos, negsuc};
ghost use Rattle.lsl_value.specs.declared.list.Atom.TheVariants.{Int as IntAtom, Key as KeyAtom};
ghost use Rattle.lsl_value.specs.declared.tagged.Value.TheVariants.{Int, Str, List};
ghost use Rattle.lsl_bytes.specs.Fields.{value_bytes};

/// The bytes of 16, of -2, of `hi` and of a list of 1 and the empty key.
pub fn worked_bytes()
    ensures sixteen { value_bytes (Int (pos 16)) ≡ 1 ∷ 0 ∷ 0 ∷ 0 ∷ 16 ∷ [] }
    ensures negative { value_bytes (Int (negsuc 1)) ≡ 1 ∷ 255 ∷ 255 ∷ 255 ∷ 254 ∷ [] }
    ensures string { value_bytes (Str (codes "hi")) ≡ 3 ∷ 0 ∷ 0 ∷ 0 ∷ 2 ∷ 104 ∷ 105 ∷ [] }
    ensures list { value_bytes (List (IntAtom (pos 1) ∷ KeyAtom [] ∷ []))
        ≡ 7 ∷ 0 ∷ 0 ∷ 0 ∷ 2 ∷ 1 ∷ 0 ∷ 0 ∷ 0 ∷ 1 ∷ 4 ∷ 0 ∷ 0 ∷ 0 ∷ 0 ∷ [] }
{}
