//! Clauses of `lsl_world` and `lsl_view`.

ghost use Rattle.std.specs.Prelude.{◌≡◌, ◌<◌, ◌≤◌, List, None, length, IfOk};
ghost use Rattle.lsl_ports.specs.Trips.{Trip, Went};
ghost use Rattle.lsl_tree.specs.Program.{Program};
ghost use Rattle.lsl_image.specs.Valid.{IsWorld};
ghost use Rattle.lsl_region.specs.Worlds.{World as SourceWorld};
ghost use Rattle.lsl_view.specs.Parts.{scripts_in, view_of_parts};
ghost use Rattle.lsl_world.specs.Frozen.{parts_in};
ghost use Rattle.lsl_world.specs.Handing.{AreCarded};
ghost use Rattle.lsl_world.specs.Programs.{rules_of};
ghost use Rattle.lsl_world.specs.Sound.{IsSound};
ghost use Rattle.lsl_world.specs.Stands.{IsOf};
ghost use Rattle.lsl_world.specs.Travels.{Does};
ghost use Rattle.lsl_lines.specs.declared.file.Step.TheVariants as steps;

use lsl_code::Library;
use lsl_image::WorldParts;
use lsl_lines::Step;
use lsl_ports::Link;
use lsl_post::Entries;
use lsl_text::NoMemory;
use lsl_value::Text;
use lsl_view::view;
use lsl_world::World;
use std::alloc::Global;

/// As `World::step` of a `run`, where crossings don't go by notes.
pub fn rounds<L: Link>(
    world: &mut World,
    segments: u32,
    link: &mut L,
    out: &mut Entries,
) -> Result<(), NoMemory>
    requires sound { IsSound world.old }
    requires segments { segments ≤ 1000000 }
    requires scripts { 0 < length world.old.grid.seats }
    requires carded { AreCarded world.old }
    requires plain { world.old.cards ≡ None }
    ensures { (trips : List Trip) × Went L.gives (L.trips link.old) (L.trips link.new) trips
        × ((programs : List Program) (w : SourceWorld) → IsOf programs world.old w
        → Does world.old.units (rules_of programs) (IsOf programs world.new) (steps.Run segments) w trips out.old
        out.new result) }
{
    world.step(&Step::Run(segments), link, out)
}

/// As `World::parts`.
pub fn parts_of(world: &World) -> Result<WorldParts, NoMemory>
    requires { IsSound world.now }
    ensures { IfOk result (λ parts. parts ≡ parts_in world.now) }
{
    world.parts()
}

/// As `view`.
pub fn viewed(
    alloc: Global,
    parts: &WorldParts,
    names: &[Text],
    library: &Library,
) -> Result<Vec<u8>, NoMemory>
    requires parts { IsWorld library.now parts.now }
    requires names { length names.now ≡ length (scripts_in parts.now) }
    ensures { IfOk result (λ lines. lines.items ≡ view_of_parts library.now names.now parts.now) }
{
    view(alloc, parts, names, library)
}
