//! Host calls on notecards: what is asked comes as an event, and the call is answered with the key of the query.

ghost use Rattle.std.specs.Prelude.{◌≡◌, ◌<◌, ◌≤◌, ◌^◌, length, slice_get, Some, None, IfOk, IfSome};
ghost use Rattle.lsl_value.specs.declared.names.BuiltinId.{BuiltinId as Id};
ghost use Rattle.lsl_value.specs.declared.tagged.Value.TheVariants as values;
ghost use Rattle.lsl_table.specs.declared.calls.Home.TheVariants as homes;
ghost use Rattle.lsl_code.specs.Kinded.{Answers};
ghost use Rattle.lsl_notes.specs.Notecards.{IsListed, card_at, most_cards};
ghost use Rattle.lsl_post.specs.Journal.{Tells};
ghost use Rattle.lsl_script.specs.Codes.{Meant};
ghost use Rattle.lsl_script.specs.Scripts.{Flight};
ghost use Rattle.lsl_region.specs.Answers.{gives, home_of, line_asked, line_from, noted, queried};
ghost use Rattle.lsl_region.specs.Mailing.{stop_of};
ghost use Rattle.lsl_region.specs.Notes.{card_of, data_event, data_told, prims_in};
ghost use Rattle.lsl_region.specs.Scenes.{Awaits, IsAwakeIn, KeepsAwake, Replies};
ghost use Rattle.lsl_region.specs.Worlds.{World};
ghost use Rattle.lsl_region.specs.declared.grid.Seat.{Seat as Place};

use crate::arguments::{integer_at, text_at};
use crate::events::data_event;
use crate::grid::Grid;
use crate::objects::{Linkset, null_key};
use crate::posting::{number, post_live};
use crate::scene::Scene;
use lsl_notes::query;
use lsl_post::{Entries, Event};
use lsl_running::Reply;
use lsl_script::Live;
use lsl_text::NoMemory;
use lsl_value::{BuiltinId, Text, Value};

impl Grid {
    /// Posts a line of a notecard of the script's prim, or the number of its lines, as an event. The answer is the
    /// query's key, or the key of zeros where there is no such notecard or line number.
    #[inline(never)]
    pub(crate) fn answer_notecard(
        &self,
        scene: &Scene,
        live: &mut Live,
        id: BuiltinId,
        args: &[Value],
        out: &mut Entries,
    ) -> Result<Reply, NoMemory>
        requires awake { IsAwakeIn scene.now self.now live.old }
        requires noting { home_of id ≡ homes.Note }
        ensures does { Replies scene.now result (self.now, live.old, out.old) (self.now, live.new, out.new)
            (λ r m w. noted r scene.now.place m id args.now w) }
        ensures fits { IfOk result (Answers id) }
        ensures stop { IfOk result (λ reply. stop_of reply ≡ None) }
        ensures live { KeepsAwake scene.now live.old live.new }
    {
        let name = text_at(args, 0)?;
        let card = self.card_of(scene.place, &name);
        let key = self.ask(scene, live, card, line_of(id, args), out)?;
        Ok(Reply::Value(Some(Value::Key(key))))
    }

    // Posts this line of a notecard, or the number of lines, if there is such a notecard and line number. Returns the
    // query's key, or that of zeros.
    fn ask(
        &self,
        scene: &Scene,
        live: &mut Live,
        card: Option<u32>,
        line: Option<Option<u32>>,
        out: &mut Entries,
    ) -> Result<Text, NoMemory>
        requires awake { IsAwakeIn scene.now self.now live.old }
        requires listed { IfSome card (IsListed self.now.cards) }
        requires within { IfSome card (λ number. number ≤ most_cards) }
        ensures does { (m : Meant scene.now.library.now) (f : Flight) (of : Id) (w : World) →
            Awaits scene.now self.now live.old of f w →
            Tells result (λ x key. Awaits scene.now self.now live.new of f x.0 × (gives (values.Key key) ≡ x.1))
            out.old out.new (queried m.rules scene.now.place card line w) }
        ensures live { KeepsAwake scene.now live.old live.new }
    {
        match card {
            Some(card) => match line {
                Some(line) => self.tell_card(scene, live, card, line, out),
                None => null_key(self.alloc),
            },
            None => null_key(self.alloc),
        }
    }

    // The number of the notecard of this name in the prim of the script at this place.
    fn card_of(&self, place: usize, name: &Text) -> Option<u32>
        requires { place < length self.now.seats }
        ensures value { (seat : Place) → slice_get self.now.seats place ≡ Some seat →
            result ≡ card_of self.now.cards self.now.objects seat.object seat.prim name.now }
        ensures listed { IfSome result (IsListed self.now.cards) }
        ensures within { IfSome result (λ number. number ≤ most_cards) }
    {
        let seat = &self.seats[place];
        let prim = prims_before(&self.objects[..seat.object]) + seat.prim as u32 + 1;
        self.cards.find(prim, name)
    }

    // Posts this line of a notecard, or the number of lines. Returns the query's key.
    fn tell_card(
        &self,
        scene: &Scene,
        live: &mut Live,
        card: u32,
        line: Option<u32>,
        out: &mut Entries,
    ) -> Result<Text, NoMemory>
        requires awake { IsAwakeIn scene.now self.now live.old }
        requires listed { IsListed self.now.cards card }
        requires within { card ≤ most_cards }
        ensures does { (m : Meant scene.now.library.now) (f : Flight) (of : Id) (w : World) →
            Awaits scene.now self.now live.old of f w →
            Tells result (λ x key. Awaits scene.now self.now live.new of f x.0 × (gives (values.Key key) ≡ x.1))
            out.old out.new (queried m.rules scene.now.place (Some card) (Some line) w) }
        ensures live { KeepsAwake scene.now live.old live.new }
    {
        let key = query(self.alloc, number(scene.place), card, line)?;
        let event = self.event_of(&key, card, line)?;
        post_live(self.alloc, scene, live, &event, out)?;
        Ok(key)
    }

    // The event with this line of a notecard, or with the number of lines, for a query of this key.
    fn event_of(&self, key: &Text, card: u32, line: Option<u32>) -> Result<Event, NoMemory>
        requires { IsListed self.now.cards card }
        ensures { IfOk result (λ event. event ≡ data_event key.now (data_told (card_at self.now.cards card) line)) }
    {
        let data = self.data_of(card, line)?;
        data_event(self.alloc, key.copy()?, data)
    }

    // This line of a notecard, or the number of lines.
    fn data_of(&self, card: u32, line: Option<u32>) -> Result<Text, NoMemory>
        requires { IsListed self.now.cards card }
        ensures { IfOk result (λ text. text ≡ data_told (card_at self.now.cards card) line) }
    {
        match line {
            Some(line) => self.cards.line(card, line),
            None => Text::decimal(self.alloc, self.cards.count(card) as i32),
        }
    }
}

// The line that is asked for, none where the call asks for the number of lines; nothing where there is no such number.
fn line_of(id: BuiltinId, args: &[Value]) -> Option<Option<u32>>
    requires { home_of id ≡ homes.Note }
    ensures { result ≡ line_asked id args.now }
{
    match id {
        BuiltinId::GetNotecardLine => line_from(integer_at(args, 1)),
        _ => Some(None),
    }
}

// The line of this number, which is none below 0.
fn line_from(number: i32) -> Option<Option<u32>>
    ensures { result ≡ line_from number }
{
    if number < 0 {
        None
    } else {
        Some(Some(number as u32))
    }
}

// How many prims these objects have.
#[tactic(auto, using(crate::proofs::CardTold::prims_step, crate::proofs::CardTold::prims_some))]
fn prims_before(objects: &[Linkset]) -> u32
    requires { prims_in objects.now < 2 ^ 32 }
    ensures { result ≡ prims_in objects.now }
{
    let mut prims = 0;
    for object in objects {
        prims += object.prims.len() as u32;
    }
    prims
}
