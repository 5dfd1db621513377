//! The parts that an image encodes.

use lsl_code::Sequence;
use lsl_post::{Pair, ScriptParts};
use lsl_value::Text;

/// The pairs of an object's store.
pub type Pairs = Sequence<Pair>;

/// What is known of an object before its image is read: its key, how many prims it has, and the numbers of its
/// scripts' units.
#[derive(Drop)]
pub struct Shape {
    pub key: Text,
    pub prims: u32,
    pub units: Sequence<u32>,
}

/// What is known of a world's objects.
pub type Shapes = Sequence<Shape>;

/// An object: its key, the names of its prims, its scripts, and its store.
#[derive(Drop)]
pub struct ObjectParts {
    pub key: Text,
    pub names: Sequence<Text>,
    pub scripts: Sequence<ScriptParts>,
    pub store: Pairs,
}

/// An object of a world, and its region.
#[derive(Drop)]
pub struct Placed {
    pub region: Text,
    pub object: ObjectParts,
}

/// A world: the clock, and the objects with their regions.
#[derive(Drop)]
pub struct WorldParts {
    pub clock: u64,
    pub objects: Sequence<Placed>,
}
