//! Events with their arguments.

ghost use Rattle.std.specs.Prelude.{◌≡◌, IfOk, IsTrue};
ghost use Rattle.lsl_table.specs.Events.{signature_of};
ghost use Rattle.lsl_code.specs.Kinds.{kinds_of, same_kinds};

use lsl_text::NoMemory;
use lsl_value::{EventId, Text, Values};
use std::alloc::Global;

/// The toucher of a prim: a key, a name, and the number of the touched prim.
#[derive(Drop)]
pub struct Toucher {
    pub key: Text,
    pub name: Text,
    pub link: i32,
}

impl Toucher {
    /// An equal one. Takes memory to share the texts.
    pub fn copy(&self) -> Result<Toucher, NoMemory>
        ensures { IfOk result (λ toucher. toucher ≡ self.now) }
    {
        Ok(Toucher {
            key: self.key.copy()?,
            name: self.name.copy()?,
            link: self.link,
        })
    }
}

/// An event: its name, its arguments of the kinds of its parameters, and its toucher.
#[derive(Drop)]
pub struct Event {
    pub id: EventId,
    pub args: Values,
    pub toucher: Option<Toucher>,
    pub ghost fits: { IsTrue (same_kinds (kinds_of args) (signature_of id)) },
}

impl Event {
    /// An equal event. Takes memory for the list of arguments, and to share their texts and lists.
    pub fn copy(&self, alloc: Global) -> Result<Event, NoMemory>
        ensures { IfOk result (λ event. event ≡ self.now) }
    {
        let toucher = match &self.toucher {
            Some(toucher) => Some(toucher.copy()?),
            None => None,
        };
        Ok(Event {
            id: self.id,
            args: self.args.copy(alloc)?,
            toucher,
        })
    }
}
