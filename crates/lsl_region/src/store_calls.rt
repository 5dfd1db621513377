//! Host calls on the store of an object.

ghost use Rattle.std.specs.Prelude.{◌≡◌, ◌<◌, [], false, pos, length, slice_get, Some, None, IfOk, IfSome, OnOk};
ghost use Rattle.std.specs.Result.{result_map_both};
ghost use Rattle.lsl_value.specs.declared.names.BuiltinId.TheVariants as ids;
ghost use Rattle.lsl_table.specs.declared.calls.Home.TheVariants as homes;
ghost use Rattle.lsl_running.specs.declared.host.Reply.TheVariants as replies;
ghost use Rattle.lsl_code.specs.Kinded.{Answers};
ghost use Rattle.lsl_image.specs.Valid.{IsStore};
ghost use Rattle.lsl_script.specs.Fitting.{is_exit};
ghost use Rattle.lsl_region.specs.Answers.{change_by, home_of, pairs_by, stored, told_by};
ghost use Rattle.lsl_region.specs.Grids.{object_in, outline_of, stored_grid};
ghost use Rattle.lsl_region.specs.Mailing.{stop_of};
ghost use Rattle.lsl_region.specs.Scenes.{Does, IsAwakeIn, KeepsAwake, KeepsSet, Replies};
ghost use Rattle.lsl_region.specs.Stores.{change_of, number_of, read_in, reset_change, room_in, told_of};
ghost use Rattle.lsl_region.specs.declared.grid.Seat.{Seat as Place};

use crate::arguments::text_at;
use crate::events::store_event;
use crate::grid::Grid;
use crate::notice::{Audience, Notice};
use crate::scene::Scene;
use lsl_data::{Store, Wrote};
use lsl_post::{Entries, Event};
use lsl_running::Reply;
use lsl_script::Live;
use lsl_text::NoMemory;
use lsl_value::{BuiltinId, Text, Value};
use std::alloc::Global;

/// What changed in an object's store, as its scripts get it: it was emptied, a name was given a value, or a name is
/// gone.
const RESET: i32 = 0;

const UPDATE: i32 = 1;

const DELETE: i32 = 2;

/// The result of a call on a store: its answer, and the event for the object's scripts.
#[derive(Drop)]
pub(crate) struct Change {
    pub(crate) answer: Option<Value>,
    pub(crate) told: Option<Event>,
}

impl Grid {
    /// Changes the store of the script's object, and posts an event of the change to all scripts of the object, the one
    /// that asks too.
    #[inline(never)]
    pub(crate) fn answer_store(
        &mut self,
        scene: &Scene,
        live: &mut Live,
        id: BuiltinId,
        args: &[Value],
        out: &mut Entries,
    ) -> Result<Reply, NoMemory>
        requires awake { IsAwakeIn scene.now self.old live.old }
        requires storing { home_of id ≡ homes.Store }
        ensures does { Replies scene.now result (self.old, live.old, out.old) (self.new, live.new, out.new)
            (λ r m w. stored r m id args.now w) }
        ensures fits { IfOk result (Answers id) }
        ensures stop { IfOk result (λ reply. stop_of reply ≡ None) }
        ensures grid { KeepsSet scene.now result self.old self.new }
        ensures live { KeepsAwake scene.now live.old live.new }
    {
        let change = self.change_store(scene.place, id, args)?;
        let told = self.tell_object(scene, live, &change.told, out);
        answered(change, told)
    }

    // Posts the event, if there is one, to all scripts of the object of the script, which is out.
    fn tell_object(
        &mut self,
        scene: &Scene,
        live: &mut Live,
        told: &Option<Event>,
        out: &mut Entries,
    ) -> Result<(), NoMemory>
        requires awake { IsAwakeIn scene.now self.old live.old }
        requires other { IfSome told.now (λ event. is_exit event ≡ false) }
        ensures does { Does scene.now result (self.old, live.old, out.old) (self.new, live.new, out.new)
            (λ r m w. told_by r m.object told.now w) }
        ensures grid { KeepsSet scene.now result self.old self.new }
        ensures live { KeepsAwake scene.now live.old live.new }
    {
        match told {
            Some(event) => {
                let scripts = Audience::Object(self.seats[scene.place].object);
                let notice = Notice {
                    audience: &scripts,
                    event,
                };
                self.post_all_with(scene, live, &notice, out)
            }
            None => Ok(()),
        }
    }

    // Changes the store of the object of the script at this place.
    fn change_store(
        &mut self,
        place: usize,
        id: BuiltinId,
        args: &[Value],
    ) -> Result<Change, NoMemory>
        requires place { place < length self.old.seats }
        requires storing { home_of id ≡ homes.Store }
        ensures change { (seat : Place) → slice_get self.old.seats place ≡ Some seat →
            IfOk result (λ change. change ≡ change_by id args.now (object_in self.old.objects seat).store) }
        ensures grid { (seat : Place) → slice_get self.old.seats place ≡ Some seat →
            OnOk result (self.new ≡ stored_grid self.old seat
            (pairs_by id args.now (object_in self.old.objects seat).store)) }
        ensures fits { IfOk result (λ change. Answers id (replies.Value change.answer)) }
        ensures other { IfOk result (λ change. IfSome change.told (λ event. is_exit event ≡ false)) }
        ensures seats { self.new.seats ≡ self.old.seats }
        ensures outline { outline_of self.new ≡ outline_of self.old }
    {
        let object = self.seats[place].object;
        changed(self.alloc, &mut self.objects[object].store, id, args)
    }
}

// The answer of a change, once its event was posted.
fn answered(change: Change, told: Result<(), NoMemory>) -> Result<Reply, NoMemory>
    ensures { result ≡ result_map_both (λ _. replies.Value change.answer) (λ error. error) told }
{
    match told {
        Ok(()) => Ok(Reply::Value(change.answer)),
        Err(error) => Err(error),
    }
}

// Changes a store as a call asks for it.
fn changed(
    alloc: Global,
    store: &mut Store,
    id: BuiltinId,
    args: &[Value],
) -> Result<Change, NoMemory>
    requires { home_of id ≡ homes.Store }
    ensures change { IfOk result (λ change. change ≡ change_by id args.now store.old) }
    ensures pairs { OnOk result (store.new ≡ pairs_by id args.now store.old) }
    ensures fits { IfOk result (λ change. Answers id (replies.Value change.answer)) }
    ensures other { IfOk result (λ change. IfSome change.told (λ event. is_exit event ≡ false)) }
    ensures kept { IsStore store.old → IsStore store.new }
{
    match id {
        BuiltinId::LinksetDataWrite => written(alloc, store, args),
        BuiltinId::LinksetDataDelete => deleted(alloc, store, args),
        BuiltinId::LinksetDataReset => emptied(alloc, store),
        _ => unreachable!(),
    }
}

// Gives the name at place 0 the value at place 1, or takes it out where that is empty.
fn written(alloc: Global, store: &mut Store, args: &[Value]) -> Result<Change, NoMemory>
    ensures change { IfOk result (λ change. change ≡ change_by ids.LinksetDataWrite args.now store.old) }
    ensures pairs { OnOk result (store.new ≡ pairs_by ids.LinksetDataWrite args.now store.old) }
    ensures kept { IsStore store.old → IsStore store.new }
{
    let name = text_at(args, 0)?;
    let text = text_at(args, 1)?;
    let told_name = name.copy()?;
    let told_text = text.copy()?;
    let wrote = store.write(name, text)?;
    change_of(alloc, wrote, told_name, told_text)
}

// Takes the name at place 0 out.
fn deleted(alloc: Global, store: &mut Store, args: &[Value]) -> Result<Change, NoMemory>
    ensures change { IfOk result (λ change. change ≡ change_by ids.LinksetDataDelete args.now store.old) }
    ensures pairs { OnOk result (store.new ≡ pairs_by ids.LinksetDataDelete args.now store.old) }
    ensures kept { IsStore store.old → IsStore store.new }
{
    let name = text_at(args, 0)?;
    let wrote = store.delete(&name);
    change_of(alloc, wrote, name, Text::new())
}

// Takes out all names.
fn emptied(alloc: Global, store: &mut Store) -> Result<Change, NoMemory>
    ensures change { IfOk result (λ change. change ≡ reset_change) }
    ensures pairs { store.new ≡ [] }
    ensures kept { IsStore store.new }
{
    store.reset();
    let told = store_event(alloc, RESET, Text::new(), Text::new())?;
    Ok(Change {
        answer: None,
        told: Some(told),
    })
}

// The result of a write or a delete with this answer.
fn change_of(alloc: Global, wrote: Wrote, name: Text, text: Text) -> Result<Change, NoMemory>
    ensures { IfOk result (λ change. change ≡ change_of wrote name text) }
{
    let told = told_of(alloc, wrote, name, text)?;
    Ok(Change {
        answer: Some(Value::Int(number_of(wrote))),
        told,
    })
}

// The event for the object's scripts, if there is one.
fn told_of(alloc: Global, wrote: Wrote, name: Text, text: Text) -> Result<Option<Event>, NoMemory>
    ensures { IfOk result (λ told. told ≡ told_of wrote name text) }
{
    match wrote {
        Wrote::Stored => Ok(Some(store_event(alloc, UPDATE, name, text)?)),
        Wrote::Deleted => Ok(Some(store_event(alloc, DELETE, name, Text::new())?)),
        Wrote::NoKey | Wrote::NotFound | Wrote::Same | Wrote::Full => Ok(None),
    }
}

// The number that a write or delete answers.
fn number_of(wrote: Wrote) -> i32
    ensures { result ≡ number_of wrote }
{
    match wrote {
        Wrote::Stored | Wrote::Deleted => 0,
        Wrote::Full => 1,
        Wrote::NoKey => 2,
        Wrote::NotFound => 4,
        Wrote::Same => 5,
    }
}

/// The value of a name, and the empty text where there is none. It is shared.
pub(crate) fn read_in(store: &Store, name: &Text) -> Result<Text, NoMemory>
    ensures { IfOk result (λ text. text ≡ read_in store.now name.now) }
{
    match store.read(name) {
        Some(text) => text.copy(),
        None => Ok(Text::new()),
    }
}

/// How many bytes may be added. Takes no memory.
pub(crate) fn room_in(store: &Store) -> i32
    ensures { result ≡ pos (room_in store.now) }
{
    store.free() as i32
}
