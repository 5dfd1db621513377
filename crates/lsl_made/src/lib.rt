//! Generated worlds: a world file of eight objects and 4,000 steps, and the script that all eight run.
//!
//! A seed generates a long run with calls in flight, crossings, pauses, chat and timers, so that two programs, machines
//! or versions can be compared by one line.
#![tactic(auto)]

ghost use Rattle.std.specs.Prelude.{◌≡◌, IfOk};
ghost use Rattle.lsl_made.specs.Laws.{IsRun};
ghost use Rattle.lsl_made.specs.Steps.{steps_of};
ghost use Rattle.lsl_made.specs.Walker.{walker_text};
ghost use Rattle.lsl_made.specs.World.{world_text};

use lsl_text::NoMemory;
use std::alloc::Global;

mod lines;
mod numbers;
mod step;
mod walker;
mod world;

pub use crate::step::{Region, Step};
pub use crate::world::Made;

/// The world generated from a seed, which may be any number. Takes memory for both texts, and one pass.
#[tactic(auto, using(crate::proofs::StepLaws::steps_run))]
pub fn made(alloc: Global, number: u32) -> Result<Made, NoMemory>
    ensures world { IfOk result (λ made. made.world ≡ world_text number) }
    ensures script { IfOk result (λ made. made.script ≡ walker_text) }
    ensures steps { IsRun (steps_of number) }
{
    let world = world::text(alloc, number)?;
    let script = walker::text(alloc)?;
    Ok(Made { world, script })
}
