//! What is posted, and to whom.

ghost use Rattle.std.specs.Prelude.{◌≡◌, false};
ghost use Rattle.lsl_script.specs.Fitting.{is_exit};
ghost use Rattle.lsl_region.specs.Posting.{is_admitted};

use crate::links::is_for;
use lsl_post::{Event, Filter, Listens};
use lsl_value::Text;

/// The scripts to which an event is posted.
#[derive(Drop)]
pub(crate) enum Audience {
    /// the scripts that hear what is said, except those of the prim that says it
    Hearers(Filter),
    /// those of the prim at this place of the object at this place
    Prim {
        object: usize,
        prim: usize,
    },
    /// those of the object at this place
    Object(usize),
    /// those of the object's prims, `count` in all, that a number names for the sender's prim
    Linked {
        object: usize,
        count: usize,
        sender: usize,
        number: i32,
    },
}

impl Audience {
    /// Whether the audience includes a script with these listens, in the prim at this place of the object at this
    /// place, which has this key. Takes no memory; walks the listens.
    pub(crate) fn admits(&self, object: usize, prim: usize, key: &Text, listens: &Listens) -> bool
        ensures { result ≡ is_admitted self.now object prim key.now listens.now }
    {
        match self {
            Audience::Hearers(said) => listens.hears(
                said.channel,
                &said.name,
                &said.id,
                &said.message,
            ) && *key != said.id,
            Audience::Prim {
                object: of,
                prim: at,
            } => object == *of && prim == *at,
            Audience::Object(of) => object == *of,
            Audience::Linked {
                object: of,
                count,
                sender,
                number,
            } => object == *of && is_for(*count, *sender, *number, prim),
        }
    }
}

/// An event, which isn't the exit of a state, and the scripts to which it is posted.
#[derive(Drop)]
pub(crate) struct Notice<'a> {
    pub(crate) audience: &'a Audience,
    pub(crate) event: &'a Event,
    pub(crate) ghost other: { is_exit event.now ≡ false },
}
