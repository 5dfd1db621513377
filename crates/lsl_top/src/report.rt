//! The run of a world, written step by step.
ghost use Rattle.std.specs.Prelude.{◌≡◌, ◌≤◌, List, [], ◌∷◌, None, All, IfOk, IfSome, IsErrOf, OnOk};
ghost use Rattle.hex.specs.Hex.{IsBytes};
ghost use Rattle.lsl_ports.specs.Counts.{Rose};
ghost use Rattle.lsl_lines.specs.Frozen.{frozen_line};
ghost use Rattle.lsl_lines.specs.Journal.{lines_of};
ghost use Rattle.lsl_tree.specs.Program.{Program};
ghost use Rattle.lsl_region.specs.Worlds.{World as SourceWorld};
ghost use Rattle.lsl_view.specs.StateParts.{state_of_parts};
ghost use Rattle.lsl_world.specs.Frozen.{frozen_image, parts_in, parts_of_world};
ghost use Rattle.lsl_world.specs.Handing.{AreCarded, CanHand};
ghost use Rattle.lsl_world.specs.Lossy.{travel_from};
ghost use Rattle.lsl_world.specs.Parts.{IsRestOf};
ghost use Rattle.lsl_world.specs.Programs.{rules_of};
ghost use Rattle.lsl_world.specs.Reports.{homes};
ghost use Rattle.lsl_world.specs.Sizes.{IsStepOf};
ghost use Rattle.lsl_world.specs.Sound.{IsSound};
ghost use Rattle.lsl_world.specs.Stages.{IsAt};
ghost use Rattle.lsl_world.specs.Stands.{IsOf, size_of};
ghost use Rattle.lsl_top.specs.Goes.{Goes, GoesPart, IsFrozenWell, IsLast, Performs};
ghost use Rattle.lsl_top.specs.Meant.{last_of};
ghost use Rattle.lsl_top.specs.Pieces.{last_piece, pieces_at};
ghost use Rattle.lsl_top.specs.Ports.{Writes, log, wire};

use crate::modes::Last;
use crate::writing::{Trouble, write_bytes, write_entries};
use lsl_lines::{Step, push_frozen};
use lsl_ports::{Link, Sink};
use lsl_post::Entries;
use lsl_text::NoMemory;
use lsl_view::{Names, state};
use lsl_world::World;
use std::alloc::Global;

/// Does a step, or a first part of it, writes its lines, and returns what is left of the step. `entries` and `lines`
/// are buffers that are reused.
fn write_part<K: Sink, L: Link>(
    world: &mut World,
    step: &Step,
    entries: &mut Entries,
    lines: &mut Vec<u8>,
    sink: &mut K,
    link: &mut L,
) -> Result<Option<Step>, Trouble>
    requires sound { IsSound world.old }
    requires step { IsStepOf (size_of world.old) step.now }
    requires carded { AreCarded world.old }
    requires named { CanHand world.old step.now }
    ensures goes { GoesPart L.gives world.old.units world.old.regions world.old world.new step.now
        (log (K.sunk sink.old) (K.faults sink.old)) (log (K.sunk sink.new) (K.faults sink.new))
        (wire (L.trips link.old) (L.faults link.old)) (wire (L.trips link.new) (L.faults link.new)) result }
    ensures rest { IfOk result (λ left. IfSome left (λ rest. IsRestOf step.now rest)) }
    ensures units { world.new.units ≡ world.old.units }
    ensures size { OnOk result (size_of world.new ≡ size_of world.old) }
    ensures sound { OnOk result (IsSound world.new) }
    ensures plain { world.old.cards ≡ None → world.new.cards ≡ None }
    ensures carded { OnOk result (AreCarded world.new) }
    ensures regions { world.new.regions ≡ world.old.regions }
{
    entries.truncate(0);
    let left = world.step_part(step, link, entries)?;
    write_entries(entries.as_slice(), lines, sink)?;
    Ok(left)
}

/// Like `write_part`, for what is left of a step, which is dropped here.
fn write_rest<K: Sink, L: Link>(
    world: &mut World,
    step: Step,
    entries: &mut Entries,
    lines: &mut Vec<u8>,
    sink: &mut K,
    link: &mut L,
) -> Result<Option<Step>, Trouble>
    requires sound { IsSound world.old }
    requires step { IsStepOf (size_of world.old) step }
    requires carded { AreCarded world.old }
    requires named { CanHand world.old step }
    ensures goes { GoesPart L.gives world.old.units world.old.regions world.old world.new step
        (log (K.sunk sink.old) (K.faults sink.old)) (log (K.sunk sink.new) (K.faults sink.new))
        (wire (L.trips link.old) (L.faults link.old)) (wire (L.trips link.new) (L.faults link.new)) result }
    ensures rest { IfOk result (λ left. IfSome left (λ rest. IsRestOf step rest)) }
    ensures units { world.new.units ≡ world.old.units }
    ensures size { OnOk result (size_of world.new ≡ size_of world.old) }
    ensures sound { OnOk result (IsSound world.new) }
    ensures plain { world.old.cards ≡ None → world.new.cards ≡ None }
    ensures carded { OnOk result (AreCarded world.new) }
    ensures regions { world.new.regions ≡ world.old.regions }
{
    write_part(world, &step, entries, lines, sink, link)
}

/// Does a step, and writes the lines of each part of it before the next part. `entries` and `lines` are buffers that
/// are reused.
fn write_step<K: Sink, L: Link>(
    world: &mut World,
    step: &Step,
    entries: &mut Entries,
    lines: &mut Vec<u8>,
    sink: &mut K,
    link: &mut L,
) -> Result<(), Trouble>
    requires sound { IsSound world.old }
    requires step { IsStepOf (size_of world.old) step.now }
    requires carded { AreCarded world.old }
    requires named { CanHand world.old step.now }
    ensures goes { Goes L.gives world.old.units world.old.regions (λ programs. IsAt programs world.old)
        (λ programs. IsAt programs world.new) (step.now ∷ [])
        (log (K.sunk sink.old) (K.faults sink.old)) (log (K.sunk sink.new) (K.faults sink.new))
        (wire (L.trips link.old) (L.faults link.old)) (wire (L.trips link.new) (L.faults link.new)) result }
    ensures units { world.new.units ≡ world.old.units }
    ensures size { OnOk result (size_of world.new ≡ size_of world.old) }
    ensures sound { OnOk result (IsSound world.new) }
    ensures plain { world.old.cards ≡ None → world.new.cards ≡ None }
    ensures carded { OnOk result (AreCarded world.new) }
    ensures regions { world.new.regions ≡ world.old.regions }
{
    let mut left = write_part(world, step, entries, lines, sink, link)?;
    'parts: while let Some(rest) = left.take() {
        left = write_rest(world, rest, entries, lines, sink, link)?;
    }
    Ok(())
}

/// Does all steps, and writes each step's lines before the next step.
fn write_steps<K: Sink, L: Link>(
    alloc: Global,
    world: &mut World,
    steps: &[Step],
    sink: &mut K,
    link: &mut L,
) -> Result<(), Trouble>
    requires sound { IsSound world.old }
    requires steps { All (IsStepOf (size_of world.old)) steps.now }
    requires carded { AreCarded world.old }
    requires named { All (CanHand world.old) steps.now }
    ensures goes { Goes L.gives world.old.units world.old.regions (λ programs. IsAt programs world.old)
        (λ programs. IsAt programs world.new) steps.now
        (log (K.sunk sink.old) (K.faults sink.old)) (log (K.sunk sink.new) (K.faults sink.new))
        (wire (L.trips link.old) (L.faults link.old)) (wire (L.trips link.new) (L.faults link.new)) result }
    ensures units { OnOk result (world.new.units ≡ world.old.units) }
    ensures sound { OnOk result (IsSound world.new) }
{
    let mut entries = Entries::new(alloc);
    let mut lines = Vec::new(alloc);
    for step in steps {
        write_step(world, step, &mut entries, &mut lines, sink, link)?;
    }
    Ok(())
}

/// Writes where each object is.
fn write_homes<K: Sink>(alloc: Global, world: &World, sink: &mut K) -> Result<(), Trouble>
    ensures of { (programs : List Program) (w : SourceWorld) → IsOf programs world.now w
        → Writes (lines_of (homes w)) (log (K.sunk sink.old) (K.faults sink.old))
        (log (K.sunk sink.new) (K.faults sink.new)) result }
    ensures counted { K.faults sink.old ≤ K.faults sink.new }
    ensures cause { IsErrOf result Trouble.WriteFault → Rose (K.faults sink.old) (K.faults sink.new) }
{
    let mut entries = Entries::new(alloc);
    world.homes(&mut entries)?;
    write_entries(entries.as_slice(), &mut Vec::new(alloc), sink)
}

/// The line of the frozen world.
fn frozen_line(alloc: Global, world: &World) -> Result<Vec<u8>, NoMemory>
    requires { IsSound world.now }
    ensures { (programs : List Program) (w : SourceWorld) → IsOf programs world.now w
        → IfOk result (λ line. (line.items ≡ frozen_line (frozen_image world.now.units w))
        × IsFrozenWell world.now.units programs w) }
{
    let image = world.freeze()?;
    image_line(alloc, image.as_slice())
}

/// The line of a frozen world of these bytes.
fn image_line(alloc: Global, image: &[u8]) -> Result<Vec<u8>, NoMemory>
    ensures line { IfOk result (λ line. line.items ≡ frozen_line image.now) }
    ensures bytes { IsBytes image.now }
{
    let mut line = Vec::new(alloc);
    push_frozen(&mut line, image)?;
    Ok(line)
}

/// Writes the frozen world.
fn write_frozen<K: Sink>(alloc: Global, world: &World, sink: &mut K) -> Result<(), Trouble>
    requires { IsSound world.now }
    ensures of { (programs : List Program) (w : SourceWorld) → IsOf programs world.now w
        → Writes (frozen_line (frozen_image world.now.units w)) (log (K.sunk sink.old) (K.faults sink.old))
        (log (K.sunk sink.new) (K.faults sink.new)) result }
    ensures last { (programs : List Program) (w : SourceWorld) → IsOf programs world.now w
        → OnOk result (IsFrozenWell world.now.units programs w) }
    ensures counted { K.faults sink.old ≤ K.faults sink.new }
    ensures cause { IsErrOf result Trouble.WriteFault → Rose (K.faults sink.old) (K.faults sink.new) }
{
    let line = frozen_line(alloc, world)?;
    write_bytes(line.as_slice(), sink)
}

/// The lines of all that the world holds, with these names.
fn state_lines(alloc: Global, names: &Names, world: &World) -> Result<Vec<u8>, NoMemory>
    requires { IsSound world.now }
    ensures { IfOk result (λ lines. lines.items ≡ state_of_parts world.now.units names.now (parts_in world.now)) }
{
    let parts = world.parts()?;
    state(alloc, &parts, names, world.units())
}

/// Writes all that the world holds, with these names.
fn write_state<K: Sink>(
    alloc: Global,
    names: &Names,
    world: &World,
    sink: &mut K,
) -> Result<(), Trouble>
    requires { IsSound world.now }
    ensures of { (programs : List Program) (w : SourceWorld) → IsOf programs world.now w
        → Writes (state_of_parts world.now.units names.now (parts_of_world world.now.units w))
        (log (K.sunk sink.old) (K.faults sink.old)) (log (K.sunk sink.new) (K.faults sink.new)) result }
    ensures counted { K.faults sink.old ≤ K.faults sink.new }
    ensures cause { IsErrOf result Trouble.WriteFault → Rose (K.faults sink.old) (K.faults sink.new) }
{
    let lines = state_lines(alloc, names, world)?;
    write_bytes(lines.as_slice(), sink)
}

/// Writes what is printed at the end.
fn write_last<K: Sink>(
    alloc: Global,
    last: Last<'_>,
    world: &World,
    sink: &mut K,
) -> Result<(), Trouble>
    requires { IsSound world.now }
    ensures of { (programs : List Program) (w : SourceWorld) → IsOf programs world.now w
        → Writes (last_piece (last_of last.entry) world.now.units w).lines
        (log (K.sunk sink.old) (K.faults sink.old)) (log (K.sunk sink.new) (K.faults sink.new)) result }
    ensures last { (programs : List Program) (w : SourceWorld) → IsOf programs world.now w
        → OnOk result (IsLast (last_of last.entry) world.now.units programs w) }
    ensures counted { K.faults sink.old ≤ K.faults sink.new }
    ensures cause { IsErrOf result Trouble.WriteFault → Rose (K.faults sink.old) (K.faults sink.new) }
{
    match last {
        Last::Homes => write_homes(alloc, world, sink),
        Last::Frozen => write_frozen(alloc, world, sink),
        Last::Inspected(names) => write_state(alloc, names, world, sink),
    }
}

/// Runs a world, and writes its journal and what is printed at its end.
pub fn write_run<K: Sink, L: Link>(
    alloc: Global,
    last: Last<'_>,
    world: World,
    steps: &[Step],
    sink: &mut K,
    link: &mut L,
) -> Result<(), Trouble>
    requires sound { IsSound world }
    requires steps { All (IsStepOf (size_of world)) steps.now }
    requires carded { AreCarded world }
    requires named { All (CanHand world) steps.now }
    ensures { Performs L.gives (λ programs stage. IsAt programs world stage)
        (λ programs stage trips. IsLast (last_of last.entry) world.units programs
        (travel_from world.units (rules_of programs) world.regions steps.now trips stage).value.world)
        (λ programs stage trips.
        pieces_at (last_of last.entry) world.units (rules_of programs) world.regions steps.now trips stage)
        (log (K.sunk sink.old) (K.faults sink.old)) (log (K.sunk sink.new) (K.faults sink.new))
        (wire (L.trips link.old) (L.faults link.old)) (wire (L.trips link.new) (L.faults link.new)) result }
{
    let mut world = world;
    write_steps(alloc, &mut world, steps, sink, link)?;
    write_last(alloc, last, &world, sink)
}
