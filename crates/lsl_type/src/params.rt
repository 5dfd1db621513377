//! Parameters.

ghost use Rattle.std.specs.Prelude.{◌≡◌, [], IfOk};
ghost use Rattle.lsl_bodies.specs.Known.{kinds_of};
ghost use Rattle.lsl_bodies.specs.Verdict.{Rules, each_verdict};
ghost use Rattle.lsl_bodies.specs.Sameness.{same_kinds};
ghost use Rattle.lsl_type.specs.HeaderVerdicts.{param_verdict};

use lsl_bodies::{Names, Refused, TypeKind, fault, is_reserved};
use lsl_text::NoMemory;
use lsl_tree::Param;
use lsl_value::Kind;
use std::alloc::Global;

pub(crate) fn kinds(alloc: Global, params: &[Param]) -> Result<Vec<Kind>, NoMemory>
    ensures { IfOk result (λ v. v.items ≡ kinds_of params.now) }
{
    params.iter().map(|param| param.kind).collect(alloc)
}

/// Parameters: none has a reserved name, or that of another. `names` has their names then, and no others.
pub(crate) fn params(alloc: Global, names: &mut Names, params: &[Param]) -> Result<(), Refused>
    ensures { Rules (λ _. names.new) result (each_verdict param_verdict [] params.now) }
{
    names.clear();
    for param in params {
        add_param(alloc, names, param)?;
    }
    Ok(())
}

fn add_param(alloc: Global, names: &mut Names, param: &Param) -> Result<(), Refused>
    ensures { Rules (λ _. names.new) result (param_verdict names.old param.now) }
{
    let name = param.name.text.as_str();
    if is_reserved(name) || names.find(name).is_some() {
        return Err(fault(TypeKind::DoubleName, param.name.span));
    }
    names.push(alloc, name)?;
    Ok(())
}

/// Whether the parameters are of these kinds.
pub(crate) fn has_kinds(params: &[Param], kinds: &[Kind]) -> bool
    ensures { result ≡ same_kinds (kinds_of params.now) kinds.now }
{
    if params.len() != kinds.len() {
        return false;
    }
    for (i, param) in params.iter().enumerate() {
        if param.kind != kinds[i] {
            return false;
        }
    }
    true
}
