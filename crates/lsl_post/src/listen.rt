//! A listen, and what it hears.

ghost use Rattle.std.specs.Prelude.{◌≡◌, IfOk};
ghost use Rattle.std.specs.Ordering.{int_eq};
ghost use Rattle.lsl_post.specs.Filters.{filter, is_any_id, is_nothing};
ghost use Rattle.lsl_post.specs.Listens.{filter_of, is_heard, listen_of};

use crate::filters::Filter;
use lsl_text::NoMemory;
use lsl_value::{Text, valid_key};

/// The key of zeros.
const NULL_KEY: &str = "00000000-0000-0000-0000-000000000000";

/// A listen: its number, whether it is active, and what it asks of spoken text
/// (<https://wiki.secondlife.com/wiki/LlListen>).
#[derive(Drop)]
pub struct Listen {
    pub number: i32,
    pub active: bool,
    pub channel: i32,
    pub name: Text,
    pub id: Text,
    pub message: Text,
}

impl Listen {
    /// An active listen of this number. Takes no memory.
    pub fn new(number: i32, filter: Filter) -> Listen
        ensures { result ≡ listen_of number filter }
    {
        let Filter {
            channel,
            name,
            id,
            message,
        } = filter;
        Listen {
            number,
            active: true,
            channel,
            name,
            id,
            message,
        }
    }

    /// What it asks. Takes memory to share the texts.
    pub fn filter(&self) -> Result<Filter, NoMemory>
        ensures { IfOk result (λ filter. filter ≡ filter_of self.now) }
    {
        Ok(Filter {
            channel: self.channel,
            name: self.name.copy()?,
            id: self.id.copy()?,
            message: self.message.copy()?,
        })
    }

    /// An equal listen. Takes memory to share the texts.
    pub fn copy(&self) -> Result<Listen, NoMemory>
        ensures { IfOk result (λ listen. listen ≡ self.now) }
    {
        Ok(Listen {
            number: self.number,
            active: self.active,
            channel: self.channel,
            name: self.name.copy()?,
            id: self.id.copy()?,
            message: self.message.copy()?,
        })
    }

    /// Whether it has this number. Takes no memory.
    pub fn has_number(&self, number: i32) -> bool
        ensures { result ≡ int_eq number self.now.number }
    {
        self.number == number
    }

    /// Whether it is active and hears this text, said on this channel under this name and key. Takes no memory.
    pub fn hears(&self, channel: i32, name: &Text, id: &Text, message: &Text) -> bool
        ensures { result ≡ is_heard (filter channel name.now id.now message.now) self.now }
    {
        self.active
            && self.channel == channel
            && (is_nothing(&self.name) || self.name == *name)
            && (is_any_id(&self.id) || self.id == *id)
            && (is_nothing(&self.message) || self.message == *message)
    }
}

// Whether a text is empty.
fn is_nothing(text: &Text) -> bool
    ensures { result ≡ is_nothing text.now }
{
    text.bytes().is_empty()
}

// Whether an id asks nothing: it isn't a valid key, or is the key of zeros.
fn is_any_id(id: &Text) -> bool
    ensures { result ≡ is_any_id id.now }
{
    !valid_key(id) || id.as_str() == NULL_KEY
}

/// Why a listen isn't added.
#[derive(Clone, Copy, PartialEq, Eq)]
pub enum ListenFault {
    /// there are 65 listens, none of them with these values
    TooMany,
    NoMemory,
}

impl From<NoMemory> for ListenFault {
    ghost use Rattle.std.specs.Prelude.{◌≡◌};
    ghost use Rattle.lsl_post.specs.declared.listen.ListenFault.TheVariants.{NoMemory};

    ghost from_gives = { λ _ e. e ≡ NoMemory };

    fn from(_e: NoMemory) -> ListenFault {
        ListenFault::NoMemory
    }
}
