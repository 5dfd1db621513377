//! Host calls that only read the world.

ghost use Rattle.std.specs.Prelude.{◌≡◌, ◌<◌, ◌≤◌, Option, length, None, IfOk, option_copied};
ghost use Rattle.lsl_value.specs.declared.names.BuiltinId.{BuiltinId as Id};
ghost use Rattle.lsl_table.specs.declared.calls.Home.TheVariants as homes;
ghost use Rattle.lsl_running.specs.declared.host.Reply.TheVariants as replies;
ghost use Rattle.lsl_code.specs.Kinded.{Answers};
ghost use Rattle.lsl_post.specs.Timing.{latest_clock};
ghost use Rattle.lsl_script.specs.Scripts.{Flight};
ghost use Rattle.lsl_region.specs.Answers.{detected, detected_key, detected_link, detected_name, home_of, told_in, value_of_query};
ghost use Rattle.lsl_region.specs.Mailing.{stop_of};
ghost use Rattle.lsl_region.specs.Scenes.{Awaits, IsSet};
ghost use Rattle.lsl_region.specs.Worlds.{World};

use crate::arguments::{integer_at, text_at};
use crate::grid::Grid;
use crate::links::{link_of, prim_or_this};
use crate::objects::{Linkset, null_key};
use crate::scene::Scene;
use crate::store_calls::{read_in, room_in};
use lsl_post::Toucher;
use lsl_running::Reply;
use lsl_script::Live;
use lsl_text::NoMemory;
use lsl_value::{BuiltinId, Text, Value};
use std::alloc::Global;

// Where a call is asked from: the script's object, prim and name, the clock, and the toucher.
#[derive(Drop)]
struct Standpoint<'a> {
    object: &'a Linkset,
    prim: usize,
    name: &'a Text,
    clock: u64,
    toucher: &'a Option<Toucher>,
}

impl Grid {
    /// Answers a call that only reads the world.
    #[inline(never)]
    pub(crate) fn answer_query(
        &self,
        scene: &Scene,
        live: &Live,
        id: BuiltinId,
        args: &[Value],
    ) -> Result<Reply, NoMemory>
        requires { IsSet scene.now self.now }
        ensures does { (f : Flight) (of : Id) (w : World) → (lent : Awaits scene.now self.now live.now of f w) →
            IfOk result (λ reply. reply ≡ replies.Value (told_in w lent.member id args.now)) }
        ensures fits { home_of id ≡ homes.Query → IfOk result (Answers id) }
        ensures stop { IfOk result (λ reply. stop_of reply ≡ None) }
    {
        let seat = &self.seats[scene.place];
        let from = Standpoint {
            object: self.object_of(scene.place),
            prim: seat.prim,
            name: &seat.name,
            clock: scene.clock,
            toucher: &live.event().toucher,
        };
        Ok(Reply::Value(value_of_query(self.alloc, &from, id, args)?))
    }
}

// The value of a call, asked from here.
fn value_of_query(
    alloc: Global,
    from: &Standpoint,
    id: BuiltinId,
    args: &[Value],
) -> Result<Option<Value>, NoMemory>
    requires prim { from.now.prim < length from.now.object.now.prims }
    requires few { length from.now.object.now.prims ≤ 255 }
    requires clock { from.now.clock ≤ latest_clock }
    ensures { IfOk result (λ told. told ≡ value_of_query from.now.object.now from.now.prim from.now.name.now
        from.now.clock from.now.toucher.now id args.now) }
{
    let (object, prim) = (from.object, from.prim);
    let prims = &object.prims;
    let value = match id {
        BuiltinId::GetOwner => Value::Key(object.owner.copy()?),
        BuiltinId::GetKey => Value::Key(prims.prim(prim).key.copy()?),
        BuiltinId::GetLinkKey => {
            Value::Key(prims.key_of(alloc, prim_or_this(prims.len(), prim, integer_at(args, 0)))?)
        }
        BuiltinId::GetLinkName => {
            Value::Str(prims.name_of(alloc, prim_or_this(prims.len(), prim, integer_at(args, 0)))?)
        }
        BuiltinId::GetLinkNumber => Value::Int(link_of(prims.len(), prim)),
        BuiltinId::GetNumberOfPrims => Value::Int(prims.len() as i32),
        BuiltinId::GetObjectName => Value::Str(prims.prim(prim).name.copy()?),
        BuiltinId::GetScriptName => Value::Str(from.name.copy()?),
        BuiltinId::GetRegionName => Value::Str(object.region.copy()?),
        BuiltinId::GetUnixTime => Value::Int((from.clock / 1000) as i32),
        BuiltinId::DetectedKey => Value::Key(detected_key(alloc, from.toucher, args)?),
        BuiltinId::DetectedName => Value::Str(detected_name(from.toucher, args)?),
        BuiltinId::DetectedLinkNumber => Value::Int(detected_link(from.toucher, args)),
        BuiltinId::LinksetDataRead => Value::Str(read_in(&object.store, &text_at(args, 0)?)?),
        BuiltinId::LinksetDataCountKeys => Value::Int(object.store.count() as i32),
        BuiltinId::LinksetDataAvailable => Value::Int(room_in(&object.store)),
        BuiltinId::LinksetDataListKeys => {
            Value::List(object.store.keys(integer_at(args, 0), integer_at(args, 1))?)
        }
        _ => return Ok(None),
    };
    Ok(Some(value))
}

// The toucher, if place 0 is asked for.
fn detected<'a>(toucher: &'a Option<Toucher>, args: &[Value]) -> Option<&'a Toucher>
    ensures { option_copied result ≡ detected toucher.now args.now }
{
    if integer_at(args, 0) == 0 {
        return toucher.as_ref();
    }
    None
}

// The toucher's key, and that of zeros where nobody touched.
fn detected_key(alloc: Global, toucher: &Option<Toucher>, args: &[Value]) -> Result<Text, NoMemory>
    ensures { IfOk result (λ key. key ≡ detected_key (detected toucher.now args.now)) }
{
    match detected(toucher, args) {
        Some(toucher) => toucher.key.copy(),
        None => null_key(alloc),
    }
}

// The toucher's name, and none where nobody touched.
fn detected_name(toucher: &Option<Toucher>, args: &[Value]) -> Result<Text, NoMemory>
    ensures { IfOk result (λ name. name ≡ detected_name (detected toucher.now args.now)) }
{
    match detected(toucher, args) {
        Some(toucher) => toucher.name.copy(),
        None => Ok(Text::new()),
    }
}

// The number of the touched prim, and 0 where nobody touched.
fn detected_link(toucher: &Option<Toucher>, args: &[Value]) -> i32
    ensures { result ≡ detected_link (detected toucher.now args.now) }
{
    match detected(toucher, args) {
        Some(toucher) => toucher.link,
        None => 0,
    }
}
