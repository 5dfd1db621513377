//! Laws of the tables.

ghost use Rattle.std.specs.Prelude.{ℕ, List};
ghost use Rattle.lsl_table.specs.Calls.{builtin_named, name_of};
ghost use Rattle.lsl_table.specs.Constants.{constant_name_of, constant_named};
ghost use Rattle.lsl_table.specs.Events.{event_name_of, event_named};
ghost use Rattle.lsl_table.specs.Names.{Finds, NamesDiffer};

/// No two calls, no two events and no two constants have one name.
pub fn names_differ()
    ensures calls { NamesDiffer name_of }
    ensures events { NamesDiffer event_name_of }
    ensures constants { NamesDiffer constant_name_of }
{}

/// What is found by a name has that name, and where nothing is found, nothing has it.
pub fn names_are_found()
    ensures calls { (name : List ℕ) → Finds name_of name (builtin_named name) }
    ensures events { (name : List ℕ) → Finds event_name_of name (event_named name) }
    ensures constants { (name : List ℕ) → Finds constant_name_of name (constant_named name) }
{}
