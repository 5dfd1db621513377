//! Events: names, and the kinds of their parameters.

ghost use Rattle.std.specs.Prelude.{◌≡◌};
ghost use Rattle.lsl_table.specs.Events.{event_named, event_name_of, signature_of};
ghost use Rattle.lsl_table.specs.Names.{Finds};

use crate::kinds::Kinds;
use crate::rows::Rows;
use lsl_value::{EventId, Kind};

/// The table of events, one row each, in the order of their numbers
/// (<https://wiki.secondlife.com/wiki/Category:LSL_Events>): `$then!` of what is given in brackets, and of the rows.
macro_rules! events {
    ($then:ident $($given:tt)*) => {
        $then! {
            [$($given)*]
            StateEntry "state_entry" ();
            StateExit "state_exit" ();
            TouchStart "touch_start" (Int);
            Touch "touch" (Int);
            TouchEnd "touch_end" (Int);
            Listen "listen" (Int, Str, Key, Str);
            Timer "timer" ();
            LinkMessage "link_message" (Int, Int, Str, Key);
            Changed "changed" (Int);
            OnRez "on_rez" (Int);
            Dataserver "dataserver" (Key, Str);
            LinksetData "linkset_data" (Int, Str, Str);
        }
    };
}

macro_rules! ids {
    ([] $($variant:ident $name:literal ($($kind:ident),*);)*) => {
        [$(EventId::$variant),*]
    };
}

macro_rules! match_name {
    ([$id:ident] $($variant:ident $name:literal ($($kind:ident),*);)*) => {
        match $id {
            $(EventId::$variant => $name,)*
        }
    };
}

macro_rules! match_kinds {
    ([$id:ident] $($variant:ident $name:literal ($($kind:ident),*);)*) => {
        match $id {
            $(EventId::$variant => Kinds::new(&[$(Kind::$kind),*]),)*
        }
    };
}

/// The events by their names' hashes, as computed by `tools/name_slots.py`.
static NAMES: Rows<16> = Rows {
    base: 261,
    slots: [255, 5, 1, 255, 8, 3, 7, 6, 9, 2, 4, 255, 11, 10, 255, 0],
};

/// The events in the order of their numbers.
static EVENTS: [EventId; 12] = events!(ids);

/// The event of this name, or none. Takes no memory, and compares one name.
pub fn event(name: &str) -> Option<EventId>
    ensures found { Finds event_name_of name.now result }
    ensures named { result ≡ event_named name.now }
{
    let id = *EVENTS.get(usize::from(NAMES.row(name)))?;
    if event_name(id) == name {
        Some(id)
    } else {
        None
    }
}

/// The event's name. Takes no memory.
pub fn event_name(id: EventId) -> &'static str
    ensures { result.now ≡ event_name_of id }
{
    events!(match_name id)
}

/// The kinds of the event's parameters. Takes no memory.
pub fn signature(id: EventId) -> Kinds
    ensures { result ≡ signature_of id }
{
    events!(match_kinds id)
}
