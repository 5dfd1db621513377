//! Host calls, by where they are done.

ghost use Rattle.std.specs.Prelude.{◌≡◌, ◌<◌, ◌≤◌, ◌-◌, true, length, slice_get, Some, None, IfOk, OnOk};
ghost use Rattle.lsl_table.specs.declared.calls.Home.TheVariants as homes;
ghost use Rattle.lsl_running.specs.Calling.{call_form};
ghost use Rattle.lsl_code.specs.Effects.{is_asked};
ghost use Rattle.lsl_code.specs.Kinded.{Answers};
ghost use Rattle.lsl_post.specs.Journal.{Tells};
ghost use Rattle.lsl_post.specs.Timing.{latest_clock};
ghost use Rattle.lsl_code.specs.declared.woven_units.Woven.{Woven as Code};
ghost use Rattle.lsl_script.specs.Awake.{IsAskedFor, IsAwake};
ghost use Rattle.lsl_script.specs.Codes.{HasUnit, Meant};
ghost use Rattle.lsl_script.specs.Scripts.{Flight};
ghost use Rattle.lsl_region.specs.Answers.{acted, answer, answer_of, home_of};
ghost use Rattle.lsl_region.specs.Grids.{AreSeated, Lent, outline_of};
ghost use Rattle.lsl_region.specs.Mailing.{stop_for, stop_of};
ghost use Rattle.lsl_region.specs.Scenes.{IsAwakeIn, KeepsAwake, KeepsSet, Replies};
ghost use Rattle.lsl_region.specs.Worlds.{World};
ghost use Rattle.lsl_region.specs.declared.grid.Seat.{Seat as Place};

use crate::grid::Grid;
use crate::mailbox_calls::mail;
use crate::scene::Scene;
use lsl_code::Library;
use lsl_post::{Entries, Voice};
use lsl_running::{Call, Reply};
use lsl_script::Live;
use lsl_table::{BuiltinRow, Home};
use lsl_text::NoMemory;
use lsl_value::{BuiltinId, Value};

impl Grid {
    /// Answers a host call of the script of this number, which is out of the grid and waits for the answer.
    ///
    /// The script stays awake: it continues once it gets the reply's value, or stops if it asked for more than 65
    /// listens. When memory runs out the entries are a prefix of the call's, and the grid must be discarded.
    ///
    /// Chat is offered only to scripts with an active listen on its channel, and to the one that asks; messages walk
    /// all of them.
    pub fn answer(
        &mut self,
        live: &mut Live,
        script: u32,
        call: Call,
        clock: u64,
        library: &Library,
        out: &mut Entries,
    ) -> Result<Reply, NoMemory>
        requires first { 0 < script }
        requires last { script ≤ length self.old.seats }
        requires clock { clock ≤ latest_clock }
        requires seated { AreSeated library.now self.old.seats }
        requires awake { (seat : Place) (unit : Code) → slice_get self.old.seats (script - 1) ≡ Some seat →
            HasUnit library.now seat.unit unit → IsAwake unit live.old }
        requires asked { IsAskedFor call }
        ensures does { (m : Meant library.now) (unit : Code) (f : Flight) (w : World) →
            Lent library.now unit clock (script - 1) self.old live.old call.id f w →
            Tells result (λ x reply. Lent library.now unit clock (script - 1) self.new live.new call.id f x.0
            × (reply ≡ x.1)) out.old out.new (answer m.rules (script - 1) call.id call.args w) }
        ensures fits { IfOk result (Answers call.id) }
        ensures stop { IfOk result (λ reply. stop_of reply ≡ stop_for call.id call.args live.old.parts.listens) }
        ensures seated { OnOk result (AreSeated library.now self.new.seats) }
        ensures awake { (seat : Place) (unit : Code) → slice_get self.old.seats (script - 1) ≡ Some seat →
            HasUnit library.now seat.unit unit → IsAwake unit live.new }
        ensures machine { live.new.machine ≡ live.old.machine }
        ensures outline { outline_of self.new ≡ outline_of self.old }
    {
        let place = script as usize - 1;
        let unit = library.unit(self.seats[place].unit);
        let scene = Scene {
            place,
            clock,
            library,
            unit,
        };
        self.answer_at(&scene, live, &call, out)
    }

    /// Answers a host call of the script at this place, which is out of the grid and waits.
    #[inline(always)]
    pub(crate) fn answer_at(
        &mut self,
        scene: &Scene,
        live: &mut Live,
        call: &Call,
        out: &mut Entries,
    ) -> Result<Reply, NoMemory>
        requires awake { IsAwakeIn scene.now self.old live.old }
        requires host { is_asked (call_form call.now.id) ≡ true }
        ensures does { Replies scene.now result (self.old, live.old, out.old) (self.new, live.new, out.new)
            (λ r m w. answer_of r scene.now.place m call.now.id call.now.args w) }
        ensures fits { IfOk result (Answers call.now.id) }
        ensures stop { IfOk result
            (λ reply. stop_of reply ≡ stop_for call.now.id call.now.args live.old.parts.listens) }
        ensures grid { KeepsSet scene.now result self.old self.new }
        ensures live { KeepsAwake scene.now live.old live.new }
    {
        match call.id() {
            BuiltinId::OwnerSay => self.answer_owner_say(scene.place, call.args(), out),
            id => self.answer_by_home(scene, live, id, call.args(), out),
        }
    }

    // Dispatches any host call by its class.
    #[inline(never)]
    fn answer_by_home(
        &mut self,
        scene: &Scene,
        live: &mut Live,
        id: BuiltinId,
        args: &[Value],
        out: &mut Entries,
    ) -> Result<Reply, NoMemory>
        requires awake { IsAwakeIn scene.now self.old live.old }
        requires host { is_asked (call_form id) ≡ true }
        ensures does { Replies scene.now result (self.old, live.old, out.old) (self.new, live.new, out.new)
            (λ r m w. answer_of r scene.now.place m id args.now w) }
        ensures fits { IfOk result (Answers id) }
        ensures stop { IfOk result (λ reply. stop_of reply ≡ stop_for id args.now live.old.parts.listens) }
        ensures grid { KeepsSet scene.now result self.old self.new }
        ensures live { KeepsAwake scene.now live.old live.new }
    {
        match id.row().home {
            Home::Query => self.answer_query(scene, live, id, args),
            Home::Mail => mail(live, id, args, scene.clock),
            Home::Sleep => mail(live, id, args, scene.clock),
            Home::Act => self.act(scene, live, id, args, out),
            Home::Store => self.answer_store(scene, live, id, args, out),
            Home::Note => self.answer_notecard(scene, live, id, args, out),
            _ => unreachable!(),
        }
    }

    // Says or sends something for the script, which is out of the grid and waits, or names its prim.
    #[inline(always)]
    fn act(
        &mut self,
        scene: &Scene,
        live: &mut Live,
        id: BuiltinId,
        args: &[Value],
        out: &mut Entries,
    ) -> Result<Reply, NoMemory>
        requires awake { IsAwakeIn scene.now self.old live.old }
        requires home { home_of id ≡ homes.Act }
        ensures does { Replies scene.now result (self.old, live.old, out.old) (self.new, live.new, out.new)
            (λ r m w. acted r scene.now.place m id args.now w) }
        ensures fits { IfOk result (Answers id) }
        ensures stop { IfOk result (λ reply. stop_of reply ≡ None) }
        ensures grid { KeepsSet scene.now result self.old self.new }
        ensures live { KeepsAwake scene.now live.old live.new }
    {
        match id {
            BuiltinId::Say => self.answer_say(scene, live, Voice::Say, args, out),
            BuiltinId::Whisper => self.answer_say(scene, live, Voice::Whisper, args, out),
            BuiltinId::Shout => self.answer_say(scene, live, Voice::Shout, args, out),
            BuiltinId::RegionSay => self.answer_region_say(scene, live, args, out),
            BuiltinId::OwnerSay => self.answer_owner_say(scene.place, args, out),
            BuiltinId::MessageLinked => self.answer_message_linked(scene, live, args, out),
            BuiltinId::SetObjectName => self.answer_set_object_name(scene.place, args),
            _ => unreachable!(),
        }
    }
}
