//! What a world file says: objects with their prims and scripts, files and steps.

use lsl_code::Sequence;
use lsl_value::Text;

/// A world file. Objects, scripts and notecards are numbered from 1 in the file's order.
#[derive(Drop)]
pub struct WorldFile {
    pub objects: Sequence<ObjectLine>,
    /// The files of scripts, each once, in the order of their first naming.
    pub files: Sequence<Text>,
    /// The files of notecards, each once, in the order of their first naming.
    pub cards: Sequence<Text>,
    pub notes: Sequence<NoteLine>,
    pub steps: Sequence<Step>,
}

/// An object: its owner's key, its region, and its prims, the root first.
#[derive(Drop)]
pub struct ObjectLine {
    pub owner: Text,
    pub region: Text,
    pub prims: Sequence<PrimLine>,
}

/// A prim: its key in lower case, its name, and its scripts.
#[derive(Drop)]
pub struct PrimLine {
    pub key: Text,
    pub name: Text,
    pub scripts: Sequence<ScriptLine>,
}

/// A script: its name, and the place of its file among the world's files.
#[derive(Drop)]
pub struct ScriptLine {
    pub name: Text,
    pub file: u32,
}

/// A notecard: the number of its prim, counted from 1 through all objects, its name, and the place of its file among
/// the files of notecards.
#[derive(Drop)]
pub struct NoteLine {
    pub prim: u32,
    pub name: Text,
    pub file: u32,
}

/// How many segments apart scripts are saved and restored, again and again; none switches it off.
pub type Gaps = Sequence<u32>;

/// A step, with its words in the file's order.
#[derive(Drop)]
pub enum Step {
    /// The clock in milliseconds, at most 2147483647999.
    Clock(u64),
    /// Chat: the channel, the speaker's name and key, and the text.
    Say(i32, Text, Text, Text),
    /// A touch: the object, the link number, and the toucher's key and name.
    Touch(u32, u32, Text, Text),
    /// An object and the flags of what changed.
    Changed(u32, i32),
    /// An object and its start parameter.
    Rez(u32, i32),
    /// A script and its segments, at most 1000000.
    Go(u32, u32),
    /// Segments, at most 1000000.
    Run(u32),
    Pause(Gaps),
    /// An object and the region that it goes to.
    Cross(u32, Text),
}
