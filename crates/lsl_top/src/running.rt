//! Worlds whose scripts are built: their runs, from the file's start or from a frozen world, and where the scripts of a
//! frozen world are in their code.

ghost use Rattle.std.specs.Prelude.{◌≡◌, List, [], None, length, map, All, IfOk, IsErrOf};
ghost use Rattle.std.specs.List.{AllByRecursion};
ghost use Rattle.lsl_ports.specs.Trips.{Honest};
ghost use Rattle.lsl_text.specs.declared.Refusal.TheVariants.{Fault};
ghost use Rattle.lsl_image.specs.Images.{IsIntact};
ghost use Rattle.lsl_image.specs.declared.faults.ImageFault.{ImageFault as AFault};
ghost use Rattle.lsl_tree.specs.Program.{Program};
ghost use Rattle.lsl_region.specs.Worlds.{World as SourceWorld};
ghost use Rattle.lsl_view.specs.Globals.{HaveGlobals, IsScript};
ghost use Rattle.lsl_view.specs.Names.{script_names as names_of_scripts};
ghost use Rattle.lsl_view.specs.Parts.{scripts_in, view_of_parts};
ghost use Rattle.lsl_world.specs.Codes.{AreRunBy};
ghost use Rattle.lsl_world.specs.Frozen.{parts_in};
ghost use Rattle.lsl_world.specs.Handing.{AreCarded, CanHand};
ghost use Rattle.lsl_world.specs.Lossy.{WereCarried, lossy_stage};
ghost use Rattle.lsl_world.specs.Programs.{rules_of};
ghost use Rattle.lsl_world.specs.Ranges.{IsInRange};
ghost use Rattle.lsl_world.specs.Regions.{regions_of_file};
ghost use Rattle.lsl_world.specs.Sizes.{size_of_file};
ghost use Rattle.lsl_world.specs.Sound.{IsSound};
ghost use Rattle.lsl_world.specs.Stages.{IsAt};
ghost use Rattle.lsl_world.specs.Stands.{IsOf, size_of};
ghost use Rattle.lsl_world.specs.Starts.{start};
ghost use Rattle.lsl_top.specs.Answers.{Comes, ComesFromStart, Inspects, Shows, lossy_answer};
ghost use Rattle.lsl_top.specs.Fair.{IsFairIn};
ghost use Rattle.lsl_top.specs.Froms.{IsFromIn};
ghost use Rattle.lsl_top.specs.Meant.{last_of, mode_of};
ghost use Rattle.lsl_top.specs.Plays.{Inspected, Thawing, inspected};
ghost use Rattle.lsl_top.specs.Ports.{Concludes, Finishes, gives_in, log, wire};
ghost use Rattle.lsl_top.specs.Thaws.{IsFrom, IsThawFault, IsThawOf};

use crate::lines::image_refusal;
use crate::modes::{Last, Mode};
use crate::play::Play;
use crate::preparing::Cast;
use crate::report::write_run;
use crate::status::Status;
use crate::writing::{status_after, write_line};
use lsl_code::Sequence;
use lsl_image::ImageFault;
use lsl_lines::{WorldFile, take_frozen};
use lsl_ports::{Link, Sink};
use lsl_text::{NoMemory, Refusal};
use lsl_view::{NameList, Names, global_names, script_names, view};
use lsl_world::World;
use std::alloc::Global;

/// Runs a play with this code and these notecards.
pub fn run_cast<K: Sink, L: Link>(
    alloc: Global,
    play: &Play<'_>,
    cast: Cast,
    sink: &mut K,
    link: &mut L,
) -> Status
    requires range { IsInRange play.now.world.now }
    requires units { length cast.units ≡ length play.now.world.now.files }
    requires scripts { AllByRecursion IsScript (map (λ t. t.items) play.now.texts.items) }
    ensures { (programs : List Program) → AreRunBy programs cast.units
        → Concludes (gives_in (mode_of play.now.mode) L.gives) (IsFairIn (mode_of play.now.mode))
        (IsFromIn (mode_of play.now.mode) cast.units programs play.now.world.now cast.cards play.now.frozen.items)
        (λ grade from trips. Comes grade from trips (mode_of play.now.mode) (map (λ t. t.items) play.now.texts.items)
        cast.units programs play.now.world.now
        cast.cards play.now.frozen.items)
        (log (K.sunk sink.old) (K.faults sink.old)) (log (K.sunk sink.new) (K.faults sink.new))
        (wire (L.trips link.old) (L.faults link.old)) (wire (L.trips link.new) (L.faults link.new)) result }
{
    match play.mode {
        Mode::Whole => run_started(alloc, Last::Homes, play.world, cast, sink, link),
        Mode::Handing => run_lossy(alloc, play.world, cast, sink, link),
        Mode::Freezing => run_started(alloc, Last::Frozen, play.world, cast, sink, link),
        Mode::Inspecting(_) => run_inspected(alloc, play, cast, sink, link),
        Mode::Thawing(name) => run_thawed(alloc, name, play, cast, sink, link),
        Mode::Viewing(name) => show_frozen(alloc, name, play, cast, sink),
    }
}

/// Runs a world from its file's start.
fn run_started<K: Sink, L: Link>(
    alloc: Global,
    last: Last<'_>,
    file: &WorldFile,
    cast: Cast,
    sink: &mut K,
    link: &mut L,
) -> Status
    requires file { IsInRange file.now }
    requires units { length cast.units ≡ length file.now.files }
    ensures { (programs : List Program) → AreRunBy programs cast.units → Concludes L.gives (Honest IsIntact)
        (λ from. Unit {0}) (λ grade from trips. ComesFromStart grade trips (last_of last.entry) cast.units programs file.now
        cast.cards)
        (log (K.sunk sink.old) (K.faults sink.old)) (log (K.sunk sink.new) (K.faults sink.new))
        (wire (L.trips link.old) (L.faults link.old)) (wire (L.trips link.new) (L.faults link.new)) result }
{
    match World::start(alloc, file, cast.units, cast.cards) {
        Ok(world) => status_after(
            write_run(alloc, last, world, file.steps.as_slice(), sink, link),
            Status::Ok,
        ),
        Err(_) => Status::NoMemory,
    }
}

/// Runs a world from its file's start, and shows all that it holds then.
fn run_inspected<K: Sink, L: Link>(
    alloc: Global,
    play: &Play<'_>,
    cast: Cast,
    sink: &mut K,
    link: &mut L,
) -> Status
    requires range { IsInRange play.now.world.now }
    requires units { length cast.units ≡ length play.now.world.now.files }
    requires scripts { AllByRecursion IsScript (map (λ t. t.items) play.now.texts.items) }
    ensures { (programs : List Program) → AreRunBy programs cast.units → Concludes L.gives (Honest IsIntact)
        (λ from. Unit {0}) (λ grade from trips. Inspects grade trips (map (λ t. t.items) play.now.texts.items)
        cast.units programs play.now.world.now cast.cards)
        (log (K.sunk sink.old) (K.faults sink.old)) (log (K.sunk sink.new) (K.faults sink.new))
        (wire (L.trips link.old) (L.faults link.old)) (wire (L.trips link.new) (L.faults link.new)) result }
{
    match names_of(alloc, play.world, play.texts.as_slice()) {
        Ok(names) => run_started(alloc, Last::Inspected(&names), play.world, cast, sink, link),
        Err(_) => Status::NoMemory,
    }
}

/// The names of a file's scripts, and of the globals of these texts.
fn names_of(alloc: Global, file: &WorldFile, texts: &[Vec<u8>]) -> Result<Names, NoMemory>
    requires { AllByRecursion IsScript (map (λ t. t.items) texts.now) }
    ensures { IfOk result (λ names. HaveGlobals (map (λ t. t.items) texts.now) names.globals
        × (Inspected names ≡ inspected file.now names.globals)) }
{
    let scripts = Sequence::from_vec(script_names(alloc, file)?);
    let globals = globals_of(alloc, texts)?;
    Ok(Names { scripts, globals })
}

/// The names of the globals of these texts, in order.
fn globals_of(alloc: Global, texts: &[Vec<u8>]) -> Result<Sequence<NameList>, NoMemory>
    requires { AllByRecursion IsScript (map (λ t. t.items) texts.now) }
    ensures { IfOk result (HaveGlobals (map (λ t. t.items) texts.now)) }
{
    let mut globals = Sequence::new(alloc);
    for text in texts {
        globals.push(global_names(alloc, text.as_slice())?)?;
    }
    Ok(globals)
}

/// Runs a world from its file's start, where objects are handed over by notes.
fn run_lossy<K: Sink, L: Link>(
    alloc: Global,
    file: &WorldFile,
    cast: Cast,
    sink: &mut K,
    link: &mut L,
) -> Status
    requires file { IsInRange file.now }
    requires units { length cast.units ≡ length file.now.files }
    ensures { (programs : List Program) → AreRunBy programs cast.units → Concludes L.gives (WereCarried [])
        (λ from. Unit {0}) (λ grade from trips answer. answer
        ≡ lossy_answer cast.units programs file.now trips (start (rules_of programs) file.now cast.cards))
        (log (K.sunk sink.old) (K.faults sink.old)) (log (K.sunk sink.new) (K.faults sink.new))
        (wire (L.trips link.old) (L.faults link.old)) (wire (L.trips link.new) (L.faults link.new)) result }
{
    match lossy_start(alloc, file, cast) {
        Ok(world) => status_after(
            write_run(alloc, Last::Homes, world, file.steps.as_slice(), sink, link),
            Status::Ok,
        ),
        Err(_) => Status::NoMemory,
    }
}

/// The world of a file at its start, where objects are handed over by notes.
fn lossy_start(alloc: Global, file: &WorldFile, cast: Cast) -> Result<World, NoMemory>
    requires file { IsInRange file.now }
    requires units { length cast.units ≡ length file.now.files }
    ensures at { (programs : List Program) → AreRunBy programs cast.units
        → IfOk result (λ world. IsAt programs world
        (lossy_stage (regions_of_file file.now) (start (rules_of programs) file.now cast.cards))) }
    ensures carded { IfOk result AreCarded }
    ensures named { IfOk result (λ world. All (CanHand world) file.now.steps) }
    ensures regions { IfOk result (λ world. world.regions ≡ regions_of_file file.now) }
    ensures size { IfOk result (λ world. size_of world ≡ size_of_file file.now) }
    ensures sound { IfOk result IsSound }
    ensures units { IfOk result (λ world. world.units ≡ cast.units) }
{
    let world = World::start(alloc, file, cast.units, cast.cards)?;
    world.lossy()
}

/// Runs a world from the frozen one of this text, or writes the refusal of the text, which is of the file of this name.
fn run_thawed<K: Sink, L: Link>(
    alloc: Global,
    name: &str,
    play: &Play<'_>,
    cast: Cast,
    sink: &mut K,
    link: &mut L,
) -> Status
    requires range { IsInRange play.now.world.now }
    requires units { length cast.units ≡ length play.now.world.now.files }
    ensures { (programs : List Program) → AreRunBy programs cast.units → Concludes L.gives (Honest IsIntact)
        (IsFrom cast.units programs play.now.world.now cast.cards play.now.frozen.items)
        (λ grade from trips. Comes grade from trips (Thawing name.now) (map (λ t. t.items) play.now.texts.items) cast.units programs play.now.world.now
        cast.cards play.now.frozen.items)
        (log (K.sunk sink.old) (K.faults sink.old)) (log (K.sunk sink.new) (K.faults sink.new))
        (wire (L.trips link.old) (L.faults link.old)) (wire (L.trips link.new) (L.faults link.new)) result }
{
    match thawed(alloc, play, cast) {
        Ok(world) => status_after(
            write_run(
                alloc,
                Last::Homes,
                world,
                play.world.steps.as_slice(),
                sink,
                link,
            ),
            Status::Ok,
        ),
        Err(Refusal::Fault(fault)) => status_after(
            write_line(image_refusal(alloc, name, &fault), sink),
            Status::BadImage,
        ),
        Err(Refusal::NoMemory) => Status::NoMemory,
    }
}

/// Writes where the scripts of the frozen world of this text are in their code, or the refusal of the text, which is of
/// the file of this name.
fn show_frozen<K: Sink>(
    alloc: Global,
    name: &str,
    play: &Play<'_>,
    cast: Cast,
    sink: &mut K,
) -> Status
    requires range { IsInRange play.now.world.now }
    requires units { length cast.units ≡ length play.now.world.now.files }
    ensures { Finishes (Shows cast.units play.now.world.now name.now play.now.frozen.items)
        (log (K.sunk sink.old) (K.faults sink.old)) (log (K.sunk sink.new) (K.faults sink.new)) result }
{
    match thawed(alloc, play, cast) {
        Ok(world) => status_after(
            write_line(view_of(alloc, play.world, &world), sink),
            Status::Ok,
        ),
        Err(Refusal::Fault(fault)) => status_after(
            write_line(image_refusal(alloc, name, &fault), sink),
            Status::BadImage,
        ),
        Err(Refusal::NoMemory) => Status::NoMemory,
    }
}

/// The lines that show where the scripts of a world are in their code, with the names that the file gives them.
fn view_of(alloc: Global, file: &WorldFile, world: &World) -> Result<Vec<u8>, NoMemory>
    requires sound { IsSound world.now }
    requires names { length (names_of_scripts file.now) ≡ length (scripts_in (parts_in world.now)) }
    ensures { IfOk result (λ lines.
        lines.items ≡ view_of_parts world.now.units (names_of_scripts file.now) (parts_in world.now)) }
{
    let parts = world.parts()?;
    let names = script_names(alloc, file)?;
    view(alloc, &parts, names.as_slice(), world.units())
}

/// The frozen world of this text, with the objects of the file, or why it has none.
fn thawed(alloc: Global, play: &Play<'_>, cast: Cast) -> Result<World, Refusal<ImageFault>>
    requires range { IsInRange play.now.world.now }
    requires units { length cast.units ≡ length play.now.world.now.files }
    ensures found { IfOk result (λ world.
        IsThawOf cast.units play.now.world.now play.now.frozen.items (parts_in world)) }
    ensures refused { (fault : AFault) → IsErrOf result (Fault fault)
        → IsThawFault cast.units play.now.world.now play.now.frozen.items fault }
    ensures of { (programs : List Program) (w : SourceWorld) → AreRunBy programs cast.units
        → IsFrom cast.units programs play.now.world.now cast.cards play.now.frozen.items w
        → IfOk result (λ world. IsOf programs world w) }
    ensures size { IfOk result (λ world. size_of world ≡ size_of_file play.now.world.now) }
    ensures sound { IfOk result IsSound }
    ensures units { IfOk result (λ world. world.units ≡ cast.units) }
    ensures plain { IfOk result (λ world. world.cards ≡ None) }
{
    let bytes = take_frozen(alloc, play.frozen.as_slice())?;
    World::thaw(alloc, play.world, cast.units, cast.cards, bytes.as_slice())
}
