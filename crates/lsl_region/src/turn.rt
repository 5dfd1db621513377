//! Turns of scripts: segment by segment, while they can run.

ghost use Rattle.std.specs.Prelude.{◌≡◌, ◌<◌, ◌≤◌, ◌-◌, ℕ, IsTrue, None, false, is_some, length, true, IfOk, OnOk, List};
ghost use Rattle.lsl_code.specs.declared.woven_units.Woven.{Woven as Code};
ghost use Rattle.lsl_code.specs.Weaves.{Weaves};
ghost use Rattle.lsl_post.specs.Journal.{Tells};
ghost use Rattle.lsl_post.specs.Timing.{latest_clock};
ghost use Rattle.lsl_script.specs.Codes.{Meant};
ghost use Rattle.lsl_region.specs.Grids.{AreSeated, Stands, outline_of, Contents};
ghost use Rattle.lsl_region.specs.PausedTurns.{counted_turn, paused_for, counted_segment, goes_on_at};
ghost use Rattle.lsl_region.specs.Pausing.{Counts, Tally, with_save};
ghost use Rattle.lsl_region.specs.Scenes.{IsHome, IsInTurn, IsSet, IsWithinSegment, KeepsSet, PassesSegment, RunsFor};
ghost use Rattle.lsl_region.specs.Segments.{is_ready_at, segment, turn};
ghost use Rattle.lsl_region.specs.Turning.{IsAble, IsHeld, IsReadyInTurn, PassesAwake};
ghost use Rattle.lsl_region.specs.Worlds.{World};
ghost use Rattle.lsl_region.specs.TurnEnds.{IsBehind};

use crate::grid::Grid;
use crate::pause::Pause;
use crate::scene::Scene;
use lsl_code::{Library, Woven};
use lsl_post::Entries;
use lsl_script::Live;
use lsl_text::NoMemory;

impl Grid {
    /// Runs segments of the script of this number while it is ready, at most `ticks`, and returns how many ran.
    ///
    /// The script stays awake from one to the next, and is saved at the end; after a pausing segment it is saved and
    /// restored. When memory runs out the entries are a prefix of the call's, and the grid must be discarded.
    pub fn turn(
        &mut self,
        script: u32,
        ticks: u32,
        clock: u64,
        pause: &mut Pause,
        library: &Library,
        out: &mut Entries,
    ) -> Result<u32, NoMemory>
        requires first { 0 < script }
        requires last { script ≤ length self.old.seats }
        requires clock { clock ≤ latest_clock }
        requires seated { AreSeated library.now self.old.seats }
        ensures does { (m : Meant library.now) (w : World) → Stands library.now None clock self.old w →
            Tells result (λ x n. Stands library.now None clock self.new x.0 × (n ≡ x.1)) out.old out.new
            (turn m.rules ticks (script - 1) w) }
        ensures counted { (m : Meant library.now) (w : World) (t : Tally) → Stands library.now None clock self.old w →
            Counts pause.old t → OnOk result (Counts pause.new (counted_turn m.rules ticks (script - 1) w t)) }
        ensures within { IfOk result (λ n. n ≤ ticks) }
        ensures seated { OnOk result (AreSeated library.now self.new.seats) }
        ensures outline { outline_of self.new ≡ outline_of self.old }
        ensures gaps { pause.new.gaps ≡ pause.old.gaps }
    {
        let place = script as usize - 1;
        let unit = library.unit(self.seats[place].unit);
        let scene = Scene {
            place,
            clock,
            library,
            unit,
        };
        let mut live = None;
        self.turn_with(&scene, &mut live, ticks, pause, out)
    }

    // Runs a turn of the script, with a buffer for it while it is awake.
    #[inline(never)]
    fn turn_with(
        &mut self,
        scene: &Scene,
        live: &mut Option<Live>,
        ticks: u32,
        pause: &mut Pause,
        out: &mut Entries,
    ) -> Result<u32, NoMemory>
        requires set { IsSet scene.now self.old }
        requires none { live.old ≡ None }
        ensures does { (m : Meant scene.now.library.now) (w : World) → IsHome scene.now self.old w →
            Tells result (λ x n. IsHome scene.now self.new x.0 × (n ≡ x.1)) out.old out.new
            (turn m.rules ticks scene.now.place w) }
        ensures counted { (m : Meant scene.now.library.now) (w : World) (t : Tally) → IsHome scene.now self.old w →
            Counts pause.old t → OnOk result (Counts pause.new (counted_turn m.rules ticks scene.now.place w t)) }
        ensures within { IfOk result (λ n. n ≤ ticks) }
        ensures grid { KeepsSet scene.now result self.old self.new }
        ensures gaps { pause.new.gaps ≡ pause.old.gaps }
    {
        let spent = self.run(scene, live, ticks, pause, out)?;
        self.settle(scene, live, pause)?;
        Ok(spent)
    }

    // Segments while the script is ready, at most `ticks`, and how many they were; it may be awake then.
    fn run(
        &mut self,
        scene: &Scene,
        live: &mut Option<Live>,
        ticks: u32,
        pause: &mut Pause,
        out: &mut Entries,
    ) -> Result<u32, NoMemory>
        requires set { IsSet scene.now self.old }
        requires none { live.old ≡ None }
        ensures does { RunsFor ticks scene.now result (self.old, out.old) (self.new, live.new, out.new) }
        ensures counted { (m : Meant scene.now.library.now) (w : World) (t : Tally) → IsHome scene.now self.old w →
            Counts pause.old t →
            OnOk result (Counts pause.new
            (paused_for m.rules scene.now.place w (turn m.rules ticks scene.now.place w).value.1 t)) }
        ensures within { IfOk result (λ n. n ≤ ticks) }
        ensures grid { KeepsSet scene.now result self.old self.new }
        ensures held { OnOk result (IsHeld scene.now.unit.now live.new) }
        ensures gaps { pause.new.gaps ≡ pause.old.gaps }
    {
        if pause.is_on() {
            self.paused_segments(scene, live, ticks, pause, out)
        } else {
            self.segments(scene, live, ticks, out)
        }
    }

    // The segments of a turn of the script at this place, where no gaps are set.
    fn segments(
        &mut self,
        scene: &Scene,
        live: &mut Option<Live>,
        ticks: u32,
        out: &mut Entries,
    ) -> Result<u32, NoMemory>
        requires set { IsSet scene.now self.old }
        requires none { live.old ≡ None }
        ensures does { RunsFor ticks scene.now result (self.old, out.old) (self.new, live.new, out.new) }
        ensures within { IfOk result (λ n. n ≤ ticks) }
        ensures grid { KeepsSet scene.now result self.old self.new }
        ensures held { OnOk result (IsHeld scene.now.unit.now live.new) }
    {
        let mut spent = 0;
        'segments: while spent < ticks {
            if !self.is_ready_in_turn(scene, live) {
                return Ok(spent);
            }
            let (passed, stands) = pass_ticks(live, scene.unit, ticks - spent);
            spent += passed;
            if stands {
                continue 'segments;
            }
            self.finish_segment(scene, live, out)?;
            spent += 1;
        }
        Ok(spent)
    }

    // Whether the script, which may be awake at a tick, can run.
    fn is_ready_in_turn(&self, scene: &Scene, live: &Option<Live>) -> bool
        requires { IsSet scene.now self.now }
        ensures source { (w : World) → IsInTurn scene.now self.now live.now w →
            result ≡ is_ready_at w scene.now.place }
        ensures ready { IsTrue result → IsReadyInTurn scene.now.clock self.now.seats scene.now.place live.now }
    {
        match live {
            Some(live) => live.ready(scene.clock),
            None => self.is_ready_at(scene.place, scene.clock),
        }
    }

    // A segment of the script at this place, which can run. One that is awake at a tick stays where it is.
    fn segment(
        &mut self,
        scene: &Scene,
        live: &mut Option<Live>,
        out: &mut Entries,
    ) -> Result<(), NoMemory>
        requires set { IsSet scene.now self.old }
        requires held { IsHeld scene.now.unit.now live.old }
        requires ready { IsReadyInTurn scene.now.clock self.old.seats scene.now.place live.old }
        ensures does { PassesSegment scene.now result (IsInTurn scene.now self.old live.old) out.old
            (self.new, live.new, out.new) }
        ensures grid { KeepsSet scene.now result self.old self.new }
        ensures held { OnOk result (IsHeld scene.now.unit.now live.new) }
    {
        let (_, stands) = pass_ticks(live, scene.unit, 1);
        if stands {
            return Ok(());
        }
        self.finish_segment(scene, live, out)
    }

    // The rest of a segment of the script at this place, or all of it where the script isn't awake yet.
    fn finish_segment(
        &mut self,
        scene: &Scene,
        live: &mut Option<Live>,
        out: &mut Entries,
    ) -> Result<(), NoMemory>
        requires set { IsSet scene.now self.old }
        requires able { IsAble scene.now.unit.now live.old }
        requires ready { IsReadyInTurn scene.now.clock self.old.seats scene.now.place live.old }
        ensures does { PassesSegment scene.now result (IsWithinSegment scene.now self.old live.old) out.old
            (self.new, live.new, out.new) }
        ensures grid { KeepsSet scene.now result self.old self.new }
        ensures held { OnOk result (IsHeld scene.now.unit.now live.new) }
    {
        match live {
            Some(awake) => {
                let turn = awake.go(scene.unit);
                self.go_on(scene, live, turn, out)
            }
            None => self.first_segment(scene, live, out),
        }
    }

    // A segment of a script that isn't awake yet.
    #[inline(never)]
    fn first_segment(
        &mut self,
        scene: &Scene,
        live: &mut Option<Live>,
        out: &mut Entries,
    ) -> Result<(), NoMemory>
        requires set { IsSet scene.now self.old }
        requires ready { IsReadyInTurn scene.now.clock self.old.seats scene.now.place None }
        ensures does { PassesSegment scene.now result (IsHome scene.now self.old) out.old
            (self.new, live.new, out.new) }
        ensures grid { KeepsSet scene.now result self.old self.new }
        ensures held { OnOk result (IsHeld scene.now.unit.now live.new) }
    {
        self.begin(scene, live, out)?;
        let Some(awake) = live else {
            unreachable!();
        };
        let turn = awake.start(scene.unit);
        self.go_on(scene, live, turn, out)
    }

    // Puts the script to rest at a turn's end, and back into the grid: it is saved.
    #[inline(never)]
    fn settle(
        &mut self,
        scene: &Scene,
        live: &mut Option<Live>,
        pause: &mut Pause,
    ) -> Result<(), NoMemory>
        requires set { IsSet scene.now self.old }
        requires held { IsHeld scene.now.unit.now live.old }
        ensures does { (w : World) → IsInTurn scene.now self.old live.old w →
            OnOk result (IsHome scene.now self.new w) }
        ensures counted { (t : Tally) → Counts pause.old t →
            OnOk result (Counts pause.new (with_save (is_some live.old) t)) }
        ensures grid { KeepsSet scene.now result self.old self.new }
        ensures gaps { pause.new.gaps ≡ pause.old.gaps }
    {
        if let Some(live) = live.take() {
            let script = live.rest(scene.unit)?;
            self.put_back(scene.place, script);
            pause.count();
        }
        Ok(())
    }

    // Segments of the script at this place while it is ready, at most `ticks`, and how many they were. It is saved and
    // restored after each pausing one that leaves it in flight and ready.
    #[inline(never)]
    fn paused_segments(
        &mut self,
        scene: &Scene,
        live: &mut Option<Live>,
        ticks: u32,
        pause: &mut Pause,
        out: &mut Entries,
    ) -> Result<u32, NoMemory>
        requires set { IsSet scene.now self.old }
        requires none { live.old ≡ None }
        ensures does { RunsFor ticks scene.now result (self.old, out.old) (self.new, live.new, out.new) }
        ensures counted { (m : Meant scene.now.library.now) (w : World) (t : Tally) → IsHome scene.now self.old w →
            Counts pause.old t →
            OnOk result (Counts pause.new
            (paused_for m.rules scene.now.place w (turn m.rules ticks scene.now.place w).value.1 t)) }
        ensures within { IfOk result (λ n. n ≤ ticks) }
        ensures grid { KeepsSet scene.now result self.old self.new }
        ensures held { OnOk result (IsHeld scene.now.unit.now live.new) }
        ensures gaps { pause.new.gaps ≡ pause.old.gaps }
    {
        for spent in 0..ticks {
            if !self.is_ready_in_turn(scene, live) {
                return Ok(spent);
            }
            self.paused_segment(scene, live, pause, out)?;
        }
        Ok(ticks)
    }

    // A segment. The script is saved and restored after it, where it is a pausing one.
    fn paused_segment(
        &mut self,
        scene: &Scene,
        live: &mut Option<Live>,
        pause: &mut Pause,
        out: &mut Entries,
    ) -> Result<(), NoMemory>
        requires set { IsSet scene.now self.old }
        requires held { IsHeld scene.now.unit.now live.old }
        requires ready { IsReadyInTurn scene.now.clock self.old.seats scene.now.place live.old }
        ensures does { PassesSegment scene.now result (IsInTurn scene.now self.old live.old) out.old
            (self.new, live.new, out.new) }
        ensures counted { (m : Meant scene.now.library.now) (w : World) (t : Tally) →
            IsInTurn scene.now self.old live.old w → Counts pause.old t →
            OnOk result (Counts pause.new
            (counted_segment scene.now.place (segment m.rules scene.now.place w).value t)) }
        ensures grid { KeepsSet scene.now result self.old self.new }
        ensures held { OnOk result (IsHeld scene.now.unit.now live.new) }
        ensures gaps { pause.new.gaps ≡ pause.old.gaps }
    {
        self.segment(scene, live, out)?;
        if !pause.pass() {
            return Ok(());
        }
        if !can_go_on(live, scene.clock) {
            return Ok(());
        }
        save_and_restore(live, scene.unit)?;
        pause.count();
        Ok(())
    }
}

// Runs segments of a script that is awake, at most `most`, as long as they use integers and calls of functions alone.
// Returns how many ran, and whether the script is at a tick then. Otherwise it is within the next segment, or not
// awake.
#[inline(always)]
fn pass_ticks(live: &mut Option<Live>, unit: &Woven, most: u32) -> (u32, bool)
    requires some { 0 < most }
    requires held { IsHeld unit.now live.old }
    ensures passed { PassesAwake result.1 unit.now result.0 live.old live.new }
    ensures some { result.1 ≡ true → 0 < result.0 }
    ensures most { result.0 ≤ most }
    ensures left { result.1 ≡ false → result.0 < most }
    ensures held { result.1 ≡ true → IsHeld unit.now live.new }
    ensures able { IsAble unit.now live.new }
{
    match live {
        Some(awake) => awake.pass_ticks(unit, most),
        None => (0, false),
    }
}

// Whether the script is awake, at a tick, and can continue.
fn can_go_on(live: &Option<Live>, clock: u64) -> bool
    ensures source { (codes : List Code) (unit : Code) (place : ℕ) (grid : Contents) (w : World) →
        IsBehind codes unit clock place grid live.now w → result ≡ goes_on_at w place }
    ensures out { IsTrue result → is_some live.now ≡ true }
{
    match live {
        Some(live) => live.ready(clock),
        None => false,
    }
}

// Saves the script, which is awake at a tick, by its unit's own code, and restores it.
fn save_and_restore(live: &mut Option<Live>, unit: &Woven) -> Result<(), NoMemory>
    requires held { IsHeld unit.now live.old }
    requires out { is_some live.old ≡ true }
    requires weaves { Weaves unit.now }
    ensures held { OnOk result (IsHeld unit.now live.new) }
    ensures same { (codes : List Code) (clock place : ℕ) (grid : Contents) (w : World) →
        IsBehind codes unit.now clock place grid live.old w →
        OnOk result (IsBehind codes unit.now clock place grid live.new w) }
{
    match live {
        Some(awake) => awake.pause(unit),
        None => unreachable!(),
    }
}
