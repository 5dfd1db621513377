//! From a call's name to its value.

ghost use Rattle.std.specs.Prelude.{◌≡◌, ◌<◌, ◌≤◌, IfOk};
ghost use Rattle.lsl_value.specs.Limits.{most_charge};
ghost use Rattle.lsl_value.specs.Values.{charge_of};
ghost use Rattle.lsl_pure.specs.Bounds.{TooBigOnlyWhere};
ghost use Rattle.lsl_pure.specs.Arguments.{IsArguments};
ghost use Rattle.lsl_pure.specs.Pure.{pure_of};

use crate::PureFault;
use crate::arguments::{first_four, int, list, text};
use crate::bounds::bounded;
use crate::csv::csv_to_list;
use crate::cuts::{delete_sub_string, insert_string, string_trim, sub_string};
use crate::elements::{entry_type, list_to_integer, list_to_key, list_to_string};
use crate::joining::{dump_list, list_to_csv};
use crate::list_cuts::{delete_sub_list, insert_list, replace_list, sub_list};
use crate::parsing::parse_string;
use crate::searching::{list_find_list, sub_string_index};
use lsl_value::BuiltinId::*;
use lsl_value::{BuiltinId, Value, Values};
use std::alloc::Global;

/// The value of a pure call, which must be charged at most 65,536. See
/// <https://wiki.secondlife.com/wiki/Category:LSL_Functions>.
pub fn call(alloc: Global, id: BuiltinId, args: Values) -> Result<Value, PureFault>
    requires { IsArguments id args }
    ensures ok { IfOk result (λ value. value ≡ pure_of id args) }
    ensures fits { IfOk result (λ value. charge_of value ≤ most_charge) }
    ensures too_big { TooBigOnlyWhere result (most_charge < charge_of (pure_of id args)) }
{
    answer(alloc, id, args)
}

/// The value of any call with any arguments: an argument that is missing or of another kind than its row's counts as
/// the empty value of that kind, and a call that isn't pure gives 0.
pub fn answer(alloc: Global, id: BuiltinId, args: Values) -> Result<Value, PureFault>
    ensures ok { IfOk result (λ value. value ≡ pure_of id args) }
    ensures fits { IfOk result (λ value. charge_of value ≤ most_charge) }
    ensures too_big { TooBigOnlyWhere result (most_charge < charge_of (pure_of id args)) }
{
    bounded(value(alloc, id, args)?)
}

// The value, too big or not.
fn value(alloc: Global, id: BuiltinId, args: Values) -> Result<Value, PureFault>
    ensures ok { IfOk result (λ value. value ≡ pure_of id args) }
    ensures too_big { TooBigOnlyWhere result (most_charge < charge_of (pure_of id args)) }
{
    let (a, b, c, d) = first_four(args);
    match id {
        Abs => Ok(Value::Int(int(a).wrapping_abs())),
        StringLength => Ok(Value::Int(text(a).character_count() as i32)),
        GetListLength => Ok(Value::Int(list(alloc, a).len() as i32)),
        GetSubString => Ok(Value::Str(sub_string(alloc, &text(a), int(b), int(c))?)),
        List2List => Ok(Value::List(sub_list(list(alloc, a), int(b), int(c))?)),
        DeleteSubString => Ok(Value::Str(delete_sub_string(alloc, &text(a), int(b), int(c))?)),
        DeleteSubList => Ok(Value::List(delete_sub_list(list(alloc, a), int(b), int(c))?)),
        InsertString => Ok(Value::Str(insert_string(alloc, &text(a), int(b), &text(c))?)),
        ListInsertList => Ok(Value::List(insert_list(list(alloc, a), list(alloc, b), int(c))?)),
        ListReplaceList => Ok(Value::List(replace_list(
            list(alloc, a),
            list(alloc, b),
            int(c),
            int(d),
        )?)),
        SubStringIndex => Ok(Value::Int(sub_string_index(&text(a), &text(b)))),
        ListFindList => Ok(Value::Int(list_find_list(&list(alloc, a), &list(alloc, b)))),
        StringTrim => Ok(Value::Str(string_trim(alloc, &text(a), int(b))?)),
        List2Integer => Ok(Value::Int(list_to_integer(&list(alloc, a), int(b)))),
        List2String => Ok(Value::Str(list_to_string(alloc, &list(alloc, a), int(b))?)),
        List2Key => Ok(Value::Key(list_to_key(&list(alloc, a), int(b))?)),
        GetListEntryType => Ok(Value::Int(entry_type(&list(alloc, a), int(b)))),
        DumpList2String => Ok(Value::Str(dump_list(alloc, &list(alloc, a), &text(b))?)),
        List2Csv => Ok(Value::Str(list_to_csv(alloc, &list(alloc, a))?)),
        Csv2List => Ok(Value::List(csv_to_list(alloc, &text(a))?)),
        ParseString2List => Ok(Value::List(parse_string(
            alloc,
            &text(a),
            &list(alloc, b),
            &list(alloc, c),
            false,
        )?)),
        ParseStringKeepNulls => Ok(Value::List(parse_string(
            alloc,
            &text(a),
            &list(alloc, b),
            &list(alloc, c),
            true,
        )?)),
        _ => Ok(Value::Int(0)),
    }
}
