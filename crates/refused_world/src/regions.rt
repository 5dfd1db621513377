//! Clauses of `lsl_region`.

ghost use Rattle.std.specs.Prelude.{◌≡◌, ◌<◌, ◌≤◌, ◌-◌, ℕ, List, None, get_or, length, pos, IfOk, MatchResult};
ghost use Rattle.lsl_ports.specs.Growth.{Begins};
ghost use Rattle.lsl_ports.specs.Trips.{Trip, Went, sent_of};
ghost use Rattle.lsl_post.specs.Journal.{Tells};
ghost use Rattle.lsl_post.specs.Timing.{latest_clock};
ghost use Rattle.lsl_script.specs.Codes.{Meant};
ghost use Rattle.lsl_region.specs.Arrivals.{say, touch};
ghost use Rattle.lsl_region.specs.Crossings.{CrossesAs, Stays, images_to};
ghost use Rattle.lsl_region.specs.Grids.{AreSeated, Stands};
ghost use Rattle.lsl_region.specs.Posting.{ring_at};
ghost use Rattle.lsl_region.specs.Worlds.{World, no_object};

use lsl_code::Library;
use lsl_ports::Link;
use lsl_post::Entries;
use lsl_region::{Crossed, Grid, Pause};
use lsl_text::NoMemory;
use lsl_value::Text;
use std::alloc::Global;

/// As `Grid::region`.
pub fn region_of(grid: &Grid, object: u32) -> &Text
    requires first { 0 < object }
    requires last { object ≤ length grid.now.objects }
    ensures { result.now ≡ (get_or grid.now.objects (object - 1) no_object).region }
{
    grid.region(object)
}

/// As `Grid::say`, on channel 0.
pub fn said(
    grid: &mut Grid,
    name: &Text,
    key: &Text,
    text: &Text,
    library: &Library,
    out: &mut Entries,
) -> Result<(), NoMemory>
    requires { AreSeated library.now grid.old.seats }
    ensures { (m : Meant library.now) (clock : ℕ) (w : World) → Stands library.now None clock grid.old w →
        Tells result (λ v _. Stands library.now None clock grid.new v) out.old out.new
        (say m.rules (pos 0) name.now key.now text.now w) }
{
    grid.say(0, name, key, text, library, out)
}

/// As `Grid::touch`.
pub fn touched(
    grid: &mut Grid,
    object: u32,
    link: u32,
    key: &Text,
    name: &Text,
    library: &Library,
    out: &mut Entries,
) -> Result<(), NoMemory>
    requires first { 0 < object }
    requires last { object ≤ length grid.old.objects }
    requires seated { AreSeated library.now grid.old.seats }
    ensures { (m : Meant library.now) (clock : ℕ) (w : World) → Stands library.now None clock grid.old w →
        Tells result (λ v _. Stands library.now None clock grid.new v) out.old out.new
        (touch m.rules (object - 1) link key.now name.now w) }
{
    grid.touch(object, link, key, name, library, out)
}

/// As `Grid::read_timer`.
pub fn timer_read(
    grid: &mut Grid,
    script: u32,
    clock: u64,
    library: &Library,
    out: &mut Entries,
) -> Result<(), NoMemory>
    requires first { 0 < script }
    requires last { script ≤ length grid.old.seats }
    requires clock { clock ≤ latest_clock }
    requires seated { AreSeated library.now grid.old.seats }
    ensures { (m : Meant library.now) (w : World) → Stands library.now None clock grid.old w →
        Tells result (λ v _. Stands library.now None clock grid.new v) out.old out.new
        (ring_at m.rules (script - 1) w) }
{
    grid.read_timer(script, clock, library, out)
}

/// As `Grid::turn`.
pub fn turned(
    grid: &mut Grid,
    script: u32,
    ticks: u32,
    clock: u64,
    pause: &mut Pause,
    library: &Library,
    out: &mut Entries,
) -> Result<u32, NoMemory>
    requires first { 0 < script }
    requires last { script ≤ length grid.old.seats }
    requires clock { clock ≤ latest_clock }
    requires seated { AreSeated library.now grid.old.seats }
    ensures { IfOk result (λ segments. segments ≤ ticks) }
{
    grid.turn(script, ticks, clock, pause, library, out)
}

/// As `Grid::cross`.
pub fn crossed<L: Link>(
    alloc: Global,
    grid: &mut Grid,
    object: u32,
    region: &Text,
    library: &Library,
    link: &mut L,
    out: &mut Entries,
) -> Result<Crossed, NoMemory>
    requires first { 0 < object }
    requires last { object ≤ length grid.old.objects }
    requires seated { AreSeated library.now grid.old.seats }
    ensures { (trips : List Trip) × Went L.gives (L.trips link.old) (L.trips link.new) trips
        × MatchResult result
        (CrossesAs library.now (object - 1) region.now grid.old grid.new out.old out.new trips)
        (λ _. Stays grid.old grid.new out.old out.new
        × Begins (sent_of trips) (images_to library.now grid.old (object - 1) region.now)) }
{
    let _alloc = alloc;
    grid.cross(object, region, library, link, out)
}
