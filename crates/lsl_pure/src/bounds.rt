//! The greatest charge of a value that a call gives.

ghost use Rattle.std.specs.Prelude.{◌≡◌, ◌<◌, ◌≤◌, ◌∷◌, ◌++◌, [], IfOk, IfErr, OnOk, OnErr};
ghost use Rattle.lsl_value.specs.Atoms.{list_charge_of};
ghost use Rattle.lsl_value.specs.Limits.{most_charge};
ghost use Rattle.lsl_value.specs.Values.{charge_of};
ghost use Rattle.lsl_pure.specs.Bounds.{TooBigOnlyWhere};

use crate::PureFault;
use lsl_value::{Atom, ELEMENT_CHARGE, Items, MOST_CHARGE, Value, charge};

/// The value, where it isn't charged too much.
pub fn bounded(value: Value) -> Result<Value, PureFault>
    ensures ok { IfOk result (λ given. (given ≡ value) × (charge_of value ≤ most_charge)) }
    ensures too_big { IfErr result (λ fault. (fault ≡ PureFault.TooBig) × (most_charge < charge_of value)) }
{
    if charge(&value) > MOST_CHARGE {
        return Err(PureFault::TooBig);
    }
    Ok(value)
}

/// Adds an element at the end, where the list isn't charged too much with it.
pub fn push_bounded(items: &mut Items, atom: Atom) -> Result<(), PureFault>
    requires { list_charge_of items.old ≤ most_charge }
    ensures ok { OnOk result (items.new ≡ items.old ++ atom ∷ []) }
    ensures fits { OnOk result (list_charge_of items.new ≤ most_charge) }
    ensures too_big { TooBigOnlyWhere result (most_charge < list_charge_of (items.old ++ atom ∷ [])) }
{
    if items.charge() + ELEMENT_CHARGE + atom.charge() > MOST_CHARGE {
        return Err(PureFault::TooBig);
    }
    items.push(atom)?;
    Ok(())
}
