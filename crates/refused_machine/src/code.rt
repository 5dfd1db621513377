//! Clauses of `lsl_code`.

ghost use Rattle.std.specs.Prelude.{◌≡◌, ◌<◌, ◌++◌, [], ◌∷◌, length, map, option_copied, IfErr, IfOk, IfSome, OnOk};
ghost use Rattle.lsl_code.specs.FrameFaults.{IsFrameFault};
ghost use Rattle.lsl_code.specs.Frames.{AreValid, points_of};
ghost use Rattle.lsl_code.specs.Packs.{packed};
ghost use Rattle.lsl_code.specs.Passages.{HasPassage};
ghost use Rattle.lsl_code.specs.Saving.{frame_of};
ghost use Rattle.lsl_code.specs.Targets.{retargeted};
ghost use Rattle.lsl_code.specs.Units.{handler_of};
ghost use Rattle.lsl_code.specs.WovenBodies.{woven_body};

use lsl_code::{Draft, FrameFault, FusedFunctions, Pack, Passage, Point, Sack, Woven};
use lsl_text::NoMemory;
use lsl_value::{EventId, Values};

/// As `Sack::check`.
pub fn checked(
    sack: Sack,
    globals: &Values,
    limit: u32,
    unit: &Woven,
    handler: u16,
) -> Result<Sack, FrameFault>
    requires { length sack < 4294967296 }
    ensures valid { IfOk result (λ checked.
        AreValid (points_of (map woven_body unit.now.functions)) handler globals.now limit checked) }
    ensures first { IfErr result (λ fault.
        IsFrameFault (points_of (map woven_body unit.now.functions)) handler globals.now limit sack fault) }
{
    sack.check(globals, limit, unit, handler)
}

/// As `Pack::seal`.
pub fn sealed(pack: &mut Pack, function: u16, point: u16) -> Result<(), NoMemory>
    ensures { OnOk result
        (pack.new ≡ packed (pack.old.frames ++ frame_of function point pack.old.hand ∷ []) []) }
{
    pack.seal(function, point)
}

/// As `Woven::handler`.
pub fn handler_in_state(unit: &Woven, state: u16, event: EventId) -> Option<u16>
    ensures { result ≡ handler_of unit.now.states state event }
{
    unit.handler(state, event)
}

/// As `Woven::point`.
pub fn point_of(unit: &Woven, function: u16, point: u16) -> Option<&Point>
    ensures { option_copied result ≡ points_of (map woven_body unit.now.functions) function point }
{
    unit.point(function, point)
}

/// As `FusedFunctions::passage`.
pub fn passage_at(functions: &FusedFunctions, function: u16, point: u16) -> Option<Passage>
    ensures { IfSome result (HasPassage (map woven_body functions.now) function point) }
{
    functions.passage(function, point)
}

/// As `Draft::set_target`.
pub fn led(draft: &mut Draft, place: usize, target: u32)
    ensures { draft.new ≡ retargeted draft.old place target }
{
    draft.set_target(place, target);
}
