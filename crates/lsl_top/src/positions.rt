//! Positions in a world file.

ghost use Rattle.std.specs.Prelude.{◌≡◌, ◌-◌};
ghost use Rattle.lsl_top.specs.Positions.{file_until as the_file_until, shortened, steps_to, steps_until as the_steps_until};

use lsl_code::Sequence;
use lsl_lines::{Step, WorldFile};

/// After the first `segment` segments of the step `step`, which is counted from 1.
#[derive(Clone, Copy, Debug, PartialEq, Eq)]
pub struct Position {
    pub step: u32,
    pub segment: u32,
}

/// The file that ends at a position, or at its own end. Takes no memory.
pub fn file_until(at: Option<Position>, file: WorldFile) -> WorldFile
    ensures { result ≡ the_file_until at file }
{
    let WorldFile {
        objects,
        files,
        cards,
        notes,
        steps,
    } = file;
    WorldFile {
        objects,
        files,
        cards,
        notes,
        steps: steps_until(at, steps),
    }
}

fn steps_until(at: Option<Position>, steps: Sequence<Step>) -> Sequence<Step>
    ensures { result ≡ the_steps_until at steps }
{
    match at {
        Some(at) => steps_to(at, steps),
        None => steps,
    }
}

fn steps_to(at: Position, steps: Sequence<Step>) -> Sequence<Step>
    ensures { result ≡ steps_to (at.step - 1) at.segment steps }
{
    let whole = (at.step as usize).saturating_sub(1);
    let mut steps = steps.into_vec();
    cut(&mut steps, whole, at.segment);
    Sequence::from_vec(steps)
}

/// Leaves `whole` whole steps, and the next one up to this segment.
#[tactic(auto, using(crate::proofs::Cuts::cut_none, crate::proofs::Cuts::cut_part, crate::proofs::Cuts::cut_all))]
fn cut(steps: &mut Vec<Step>, whole: usize, segment: u32)
    ensures { steps.new.items ≡ steps_to whole segment steps.old.items }
{
    if segment == 0 {
        steps.truncate(whole);
    } else if whole < steps.len() {
        shorten(&mut steps[whole], segment);
        steps.truncate(whole + 1);
    }
}

/// Leaves at most this many segments of a step. One that has no segments stays whole.
fn shorten(step: &mut Step, most: u32)
    ensures { step.new ≡ shortened most step.old }
{
    match step {
        Step::Run(count) => *count = (*count).min(most),
        Step::Go(_, count) => *count = (*count).min(most),
        _ => {}
    }
}
