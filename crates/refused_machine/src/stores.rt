//! Clauses of `lsl_data`.

ghost use Rattle.std.specs.Prelude.{◌≡◌, ◌+◌, IfOk};
ghost use Rattle.lsl_data.specs.Answers.{write_answer};
ghost use Rattle.lsl_data.specs.Pairs.{bytes_of};

use lsl_data::{Store, Wrote};
use lsl_text::NoMemory;
use lsl_value::Text;

/// As `Store::write`.
pub fn written(store: &mut Store, name: Text, value: Text) -> Result<Wrote, NoMemory>
    ensures { IfOk result (λ wrote. wrote ≡ write_answer store.old name value) }
{
    store.write(name, value)
}

/// As `Store::free`.
pub fn room_left(store: &Store) -> u32
    ensures { result + bytes_of store.now ≡ 65536 }
{
    store.free()
}
