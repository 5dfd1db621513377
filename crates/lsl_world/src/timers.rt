//! The index of due times, kept in step with the scripts' timers.

ghost use Rattle.std.specs.Prelude.{◌≡◌, ℕ, List, None, length, OnOk};
ghost use Rattle.lsl_code.specs.declared.woven_units.Woven.{Woven as Code};
ghost use Rattle.lsl_post.specs.Due.{Puts};
ghost use Rattle.lsl_region.specs.Grids.{Stands};
ghost use Rattle.lsl_region.specs.Worlds.{World as SourceWorld};
ghost use Rattle.lsl_world.specs.Sizes.{HasNumber};
ghost use Rattle.lsl_world.specs.Timers.{AreNumbered, IsIndexIn, IsIndexOf, PutsIn, due_of, timings_of};

use lsl_post::Due;
use lsl_region::Grid;
use lsl_text::NoMemory;

/// Sets the entries of all scripts from their timers. Walks the scripts.
pub(crate) fn note_timers(grid: &Grid, due: &mut Due) -> Result<(), NoMemory>
    requires numbered { AreNumbered (length grid.now.seats) due.old }
    ensures exact { OnOk result ((codes : List Code) (clock : ℕ) (w : SourceWorld)
        → Stands codes None clock grid.now w → IsIndexOf (timings_of w) due.new) }
    ensures index { OnOk result (IsIndexIn grid.now.seats due.new) }
    ensures numbered { AreNumbered (length grid.now.seats) due.new }
{
    for place in 0..grid.scripts() {
        note_timer(grid, place as u32 + 1, due)?;
    }
    Ok(())
}

/// Sets the entry of the script of this number from its timer.
pub(crate) fn note_timer(grid: &Grid, script: u32, due: &mut Due) -> Result<(), NoMemory>
    requires script { HasNumber (length grid.now.seats) script }
    requires numbered { AreNumbered (length grid.now.seats) due.old }
    ensures puts { OnOk result ((codes : List Code) (clock : ℕ) (w : SourceWorld)
        → Stands codes None clock grid.now w → Puts script (due_of (timings_of w) script) due.old due.new) }
    ensures seat { OnOk result (PutsIn grid.now.seats script due.old due.new) }
    ensures numbered { AreNumbered (length grid.now.seats) due.new }
{
    due.put(script, grid.due(script))
}
