//! Host calls that say or send something, or name a prim.

ghost use Rattle.std.specs.Prelude.{◌≡◌, ◌<◌, ◌+◌, ℕ, List, [], ◌∷◌, false, pos, length, slice_get, Some, None, IfOk, OnOk};
ghost use Rattle.std.specs.Ordering.{int_eq};
ghost use Rattle.lsl_value.specs.declared.names.BuiltinId.{BuiltinId as Id};
ghost use Rattle.lsl_value.specs.declared.names.BuiltinId.TheVariants as ids;
ghost use Rattle.lsl_code.specs.declared.woven_units.Woven.{Woven as Code};
ghost use Rattle.lsl_post.specs.Filters.{filter};
ghost use Rattle.lsl_post.specs.Journal.{Adds};
ghost use Rattle.lsl_post.specs.declared.entries.Entry.TheVariants as entries;
ghost use Rattle.lsl_script.specs.Fitting.{is_exit};
ghost use Rattle.lsl_script.specs.Scripts.{Flight};
ghost use Rattle.lsl_script.specs.declared.live.Live.{Live as Awake};
ghost use Rattle.lsl_region.specs.Answers.{answer_of, integer_at, is_message_to, message_of, nothing, prims_count, renamed, says, text_at};
ghost use Rattle.lsl_region.specs.Grids.{Lent, linked_to, object_in, outline_of, prim_in, renamed_grid};
ghost use Rattle.lsl_region.specs.Links.{link_of};
ghost use Rattle.lsl_region.specs.Posting.{post_all, said_to_all};
ghost use Rattle.lsl_region.specs.Scenes.{Does, IsAwakeIn, IsSet, KeepsAwake, KeepsSet, Replies};
ghost use Rattle.lsl_region.specs.Texts.{cut_name, cut_speech};
ghost use Rattle.lsl_region.specs.Worlds.{World};
ghost use Rattle.lsl_region.specs.declared.grid.Seat.{Seat as Place};

use crate::arguments::{integer_at, text_at, text_in};
use crate::events::{listen_event, message_event};
use crate::grid::Grid;
use crate::links::link_of;
use crate::notice::{Audience, Notice};
use crate::posting::number;
use crate::scene::Scene;
use crate::texts::{cut_name, cut_speech};
use lsl_post::{Entries, Entry, Event, Filter, Voice};
use lsl_running::Reply;
use lsl_script::Live;
use lsl_text::NoMemory;
use lsl_value::{Text, Value};
use std::alloc::Global;

impl Grid {
    // What is heard where the script at this place says a text.
    fn heard_of(&self, place: usize, channel: i32, text: &Text) -> Result<Filter, NoMemory>
        requires { place < length self.now.seats }
        ensures { (seat : Place) → slice_get self.now.seats place ≡ Some seat →
            IfOk result (λ said. said ≡ filter channel (prim_in self.now.objects seat).name
            (prim_in self.now.objects seat).key text.now) }
    {
        let prim = self.prim_of(place);
        Ok(Filter {
            channel,
            name: prim.name.copy()?,
            id: prim.key.copy()?,
            message: text.copy()?,
        })
    }

    // The line of a text that the script says, and what is heard of it.
    fn say_line(
        &self,
        scene: &Scene,
        voice: Voice,
        channel: i32,
        text: Text,
        out: &mut Entries,
    ) -> Result<Filter, NoMemory>
        requires { IsSet scene.now self.now }
        ensures line { Adds result out.old out.new
            (entries.Chat (scene.now.place + 1) voice channel text ∷ []) }
        ensures said { (seat : Place) → slice_get self.now.seats scene.now.place ≡ Some seat →
            IfOk result (λ said. said ≡ filter channel (prim_in self.now.objects seat).name
            (prim_in self.now.objects seat).key text) }
    {
        let said = self.heard_of(scene.place, channel, &text)?;
        out.push(Entry::Chat(number(scene.place), voice, channel, text))?;
        Ok(said)
    }

    // Others hear what is said where the script at this place is out.
    fn tell_hearers(
        &mut self,
        scene: &Scene,
        live: &mut Live,
        said: Filter,
        out: &mut Entries,
    ) -> Result<(), NoMemory>
        requires awake { IsAwakeIn scene.now self.old live.old }
        ensures does { Does scene.now result (self.old, live.old, out.old) (self.new, live.new, out.new)
            (λ r m w. said_to_all r said w) }
        ensures grid { KeepsSet scene.now result self.old self.new }
        ensures live { KeepsAwake scene.now live.old live.new }
    {
        let event = listen_event(self.alloc, &said)?;
        let hearers = Audience::Hearers(said);
        let notice = Notice {
            audience: &hearers,
            event: &event,
        };
        self.post_all_with(scene, live, &notice, out)
    }

    /// llSay(channel, text), and the like in other voices.
    #[inline(never)]
    pub(crate) fn answer_say(
        &mut self,
        scene: &Scene,
        live: &mut Live,
        voice: Voice,
        args: &[Value],
        out: &mut Entries,
    ) -> Result<Reply, NoMemory>
        requires awake { IsAwakeIn scene.now self.old live.old }
        ensures does { Replies scene.now result (self.old, live.old, out.old) (self.new, live.new, out.new)
            (λ r m w. says r scene.now.place voice m args.now w) }
        ensures reply { IfOk result (λ reply. reply ≡ nothing) }
        ensures grid { KeepsSet scene.now result self.old self.new }
        ensures live { KeepsAwake scene.now live.old live.new }
    {
        let text = spoken(self.alloc, args, 1)?;
        let said = self.say_line(scene, voice, integer_at(args, 0), text, out)?;
        self.tell_hearers(scene, live, said, out)?;
        Ok(Reply::Value(None))
    }

    /// llRegionSay(channel, text); channel 0 is silent.
    #[inline(never)]
    pub(crate) fn answer_region_say(
        &mut self,
        scene: &Scene,
        live: &mut Live,
        args: &[Value],
        out: &mut Entries,
    ) -> Result<Reply, NoMemory>
        requires awake { IsAwakeIn scene.now self.old live.old }
        ensures does { Replies scene.now result (self.old, live.old, out.old) (self.new, live.new, out.new)
            (λ r m w. answer_of r scene.now.place m ids.RegionSay args.now w) }
        ensures reply { IfOk result (λ reply. reply ≡ nothing) }
        ensures grid { KeepsSet scene.now result self.old self.new }
        ensures live { KeepsAwake scene.now live.old live.new }
    {
        if is_silent(args) {
            return Ok(Reply::Value(None));
        }
        self.answer_say(scene, live, Voice::Region, args, out)
    }

    /// llOwnerSay(text).
    #[inline(always)]
    pub(crate) fn answer_owner_say(
        &self,
        place: usize,
        args: &[Value],
        out: &mut Entries,
    ) -> Result<Reply, NoMemory>
        requires { place < length self.now.seats }
        ensures does { Adds result out.old out.new
            (entries.Owner (place + 1) (cut_speech (text_at 0 args.now)) ∷ []) }
        ensures reply { IfOk result (λ reply. reply ≡ nothing) }
    {
        let text = spoken(self.alloc, args, 0)?;
        out.push(Entry::Owner(number(place), text))?;
        Ok(Reply::Value(None))
    }

    // The message of these arguments.
    fn message(&self, place: usize, args: &[Value]) -> Result<Event, NoMemory>
        requires { place < length self.now.seats }
        ensures value { (codes : List Code) (unit : Code) (clock : ℕ) (live : Awake) (of : Id) (f : Flight)
            (w : World) → (lent : Lent codes unit clock place self.now live of f w) →
            IfOk result (λ event. event ≡ message_of w lent.member args.now) }
        ensures other { IfOk result (λ event. is_exit event ≡ false) }
    {
        let (text, key) = (text_at(args, 2)?, text_at(args, 3)?);
        message_event(self.alloc, self.link(place), integer_at(args, 1), text, key)
    }

    // The link number of the prim of the script at this place.
    fn link(&self, place: usize) -> i32
        requires { place < length self.now.seats }
        ensures { (seat : Place) → slice_get self.now.seats place ≡ Some seat →
            result ≡ pos (link_of (length (object_in self.now.objects seat).prims) seat.prim) }
    {
        link_of(self.object_of(place).prims.len(), self.seats[place].prim)
    }

    // To whom a message with these arguments goes.
    fn linked(&self, place: usize, args: &[Value]) -> Audience
        requires { place < length self.now.seats }
        ensures { (seat : Place) → slice_get self.now.seats place ≡ Some seat →
            result ≡ linked_to (length (object_in self.now.objects seat).prims) seat args.now }
    {
        let seat = &self.seats[place];
        Audience::Linked {
            object: seat.object,
            count: self.object_of(place).prims.len(),
            sender: seat.prim,
            number: integer_at(args, 0),
        }
    }

    // A message with these arguments goes to the scripts of the prims that the number at place 0 names.
    fn send_linked(
        &mut self,
        scene: &Scene,
        live: &mut Live,
        args: &[Value],
        out: &mut Entries,
    ) -> Result<(), NoMemory>
        requires awake { IsAwakeIn scene.now self.old live.old }
        ensures does { Does scene.now result (self.old, live.old, out.old) (self.new, live.new, out.new)
            (λ r m w. post_all r (is_message_to (prims_count w m) m (integer_at 0 args.now))
            (message_of w m args.now) w) }
        ensures grid { KeepsSet scene.now result self.old self.new }
        ensures live { KeepsAwake scene.now live.old live.new }
    {
        let event = self.message(scene.place, args)?;
        let audience = self.linked(scene.place, args);
        let notice = Notice {
            audience: &audience,
            event: &event,
        };
        self.post_all_with(scene, live, &notice, out)
    }

    /// llMessageLinked(link, number, text, key).
    #[inline(never)]
    pub(crate) fn answer_message_linked(
        &mut self,
        scene: &Scene,
        live: &mut Live,
        args: &[Value],
        out: &mut Entries,
    ) -> Result<Reply, NoMemory>
        requires awake { IsAwakeIn scene.now self.old live.old }
        ensures does { Replies scene.now result (self.old, live.old, out.old) (self.new, live.new, out.new)
            (λ r m w. answer_of r scene.now.place m ids.MessageLinked args.now w) }
        ensures reply { IfOk result (λ reply. reply ≡ nothing) }
        ensures grid { KeepsSet scene.now result self.old self.new }
        ensures live { KeepsAwake scene.now live.old live.new }
    {
        self.send_linked(scene, live, args, out)?;
        Ok(Reply::Value(None))
    }

    // Names the prim of the script at this place.
    fn set_name(&mut self, place: usize, name: Text)
        requires { place < length self.old.seats }
        ensures grid { (seat : Place) → slice_get self.old.seats place ≡ Some seat →
            self.new ≡ renamed_grid self.old seat name }
        ensures seats { self.new.seats ≡ self.old.seats }
        ensures outline { outline_of self.new ≡ outline_of self.old }
    {
        let seat = &self.seats[place];
        self.objects[seat.object].prims.rename(seat.prim, name);
    }

    /// llSetObjectName(name): the script's prim has the name, cut.
    #[inline(never)]
    pub(crate) fn answer_set_object_name(
        &mut self,
        place: usize,
        args: &[Value],
    ) -> Result<Reply, NoMemory>
        requires { place < length self.old.seats }
        ensures does { (codes : List Code) (unit : Code) (clock : ℕ) (live : Awake) (of : Id) (f : Flight) (w : World) →
            (lent : Lent codes unit clock place self.old live of f w) →
            OnOk result (Lent codes unit clock place self.new live of f
            (renamed w lent.member (cut_name (text_at 0 args.now)))) }
        ensures reply { IfOk result (λ reply. reply ≡ nothing) }
        ensures seats { self.new.seats ≡ self.old.seats }
        ensures outline { outline_of self.new ≡ outline_of self.old }
    {
        let text = text_at(args, 0)?;
        let name = cut_name(self.alloc, &text)?;
        self.set_name(place, name);
        Ok(Reply::Value(None))
    }
}

// Whether the channel at place 0 is the region's silent one.
fn is_silent(args: &[Value]) -> bool
    ensures { result ≡ int_eq (integer_at 0 args.now) (pos 0) }
{
    integer_at(args, 0) == 0
}

// The text at this place as it is said.
#[inline(always)]
fn spoken(alloc: Global, args: &[Value], place: usize) -> Result<Text, NoMemory>
    ensures { IfOk result (λ text. text ≡ cut_speech (text_at place args.now)) }
{
    match text_in(args, place) {
        Some(text) => cut_speech(alloc, text),
        None => Ok(Text::new()),
    }
}
