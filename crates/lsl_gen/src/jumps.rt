//! Jumps to labels. Each is emitted before its label's place is known, and patched where the label's block ends.

ghost use Rattle.std.specs.Prelude.{◌≡◌, [], ◌∷◌, ◌++◌, OnOk, length};
ghost use Rattle.lsl_tree.specs.Actions.{Jump as JumpAction, action_of};
ghost use Rattle.lsl_gen.specs.Statements.{action_code, place_if_label};
ghost use Rattle.lsl_gen.specs.OpenJumps.{found_place, led_to, led, still_open, open_jumps};

use crate::label_places::{LabelPlace, OpenJump};
use crate::labels::Labels;
use crate::numbers::to_u32;
use lsl_code::{Draft, Instr};
use lsl_text::NoMemory;
use lsl_tree::Action;

/// Adds a jump to a label, which is open until its block ends.
pub fn emit_jump(
    draft: &mut Draft,
    jumps: &mut Vec<OpenJump>,
    line: u32,
    label: usize,
) -> Result<(), NoMemory>
    ensures code { OnOk result (draft.new
        ≡ draft.old ++ action_code (JumpAction line label) [] (length draft.old)) }
    ensures jumps { OnOk result (jumps.new.items
        ≡ jumps.old.items ++ open_jumps (JumpAction line label) (length draft.old)) }
{
    draft.push_tick(line)?;
    let place = draft.len();
    draft.push(Instr::Jump(0))?;
    jumps.push(OpenJump { place, label })?;
    Ok(())
}

/// Adds a statement's place where it is a label.
pub fn push_label(
    labels: &mut Vec<LabelPlace>,
    action: &Action,
    place: usize,
) -> Result<(), NoMemory>
    ensures { OnOk result (labels.new.items
        ≡ labels.old.items ++ place_if_label (action_of action.now) place) }
{
    match action {
        Action::Label { label } => {
            labels.push(LabelPlace {
                label: *label,
                place,
            })?;
            Ok(())
        }
        _ => Ok(()),
    }
}

/// Patches the jumps of a block to its labels. Those that lead to other labels stay open.
pub fn close_jumps(
    draft: &mut Draft,
    jumps: &mut Vec<OpenJump>,
    inner: &[OpenJump],
    labels: &Labels,
) -> Result<(), NoMemory>
    ensures code { OnOk result (draft.new ≡ led labels.now inner.now draft.old) }
    ensures jumps { OnOk result (jumps.new.items ≡ jumps.old.items ++ still_open labels.now inner.now) }
{
    for jump in inner {
        close(draft, jumps, *jump, labels)?;
    }
    Ok(())
}

// Patches a jump to its label, or keeps it open where that isn't among these.
fn close(
    draft: &mut Draft,
    jumps: &mut Vec<OpenJump>,
    jump: OpenJump,
    labels: &Labels,
) -> Result<(), NoMemory>
    ensures code { OnOk result (draft.new ≡ led_to (found_place jump.label labels.now) jump draft.old) }
    ensures jumps { OnOk result (jumps.new.items ≡ jumps.old.items ++ still_open labels.now (jump ∷ [])) }
{
    match labels.place(jump.label) {
        Some(place) => {
            let target = to_u32(place)?;
            draft.set_target(jump.place, target);
            Ok(())
        }
        None => {
            jumps.push(jump)?;
            Ok(())
        }
    }
}
