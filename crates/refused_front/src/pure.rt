//! Calls of `lsl_pure`.

ghost use Rattle.std.specs.Prelude.{◌≡◌, ◌<◌, IfOk};
ghost use Rattle.lsl_pure.specs.Csv.{csv_elements};
ghost use Rattle.lsl_pure.specs.Cuts.{taken};
ghost use Rattle.lsl_value.specs.declared.tagged.Value.TheVariants as kind;

use lsl_pure::{PureFault, answer};
use lsl_value::{BuiltinId, Text, Value, Values};
use std::alloc::Global;

/// `answer`, `ok`, of `llGetSubString`.
pub fn sub_string(alloc: Global, text: Text, first: i32, last: i32) -> Result<Value, PureFault>
    ensures { IfOk result (λ value. value ≡ kind.Str (taken text first last)) }
{
    let args = vec![in alloc; Value::Str(text), Value::Int(first), Value::Int(last)]?;
    answer(alloc, BuiltinId::GetSubString, Values::from_vec(args))
}

/// `answer`, `ok`, of `llCSV2List`.
pub fn list_of_csv(alloc: Global, text: Text) -> Result<Value, PureFault>
    ensures { IfOk result (λ value. value ≡ kind.List (csv_elements text)) }
{
    let args = vec![in alloc; Value::Str(text)]?;
    answer(alloc, BuiltinId::Csv2List, Values::from_vec(args))
}
