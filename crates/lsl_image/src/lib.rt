//! Objects and worlds as images: byte lists that hold all that a script in flight needs to continue elsewhere.
#![tactic(auto)]

mod calls;
mod charges;
mod events;
mod examples;
mod faults;
mod fields;
mod frames;
mod head;
mod images;
mod laws;
mod listens;
mod object;
mod parts;
mod queue;
mod rest;
mod script;
mod seal;
mod store;
mod toucher;
mod values;
mod waiting;
mod world;
mod write_body;
mod write_events;
mod write_images;
mod write_rest;
mod write_script;
mod write_waiting;

pub use crate::examples::{
    faults_and_events_are_numbered, object_without_scripts, saved_call_in_bytes, script_in_bytes,
    world_without_objects,
};
pub use crate::faults::ImageFault;
pub use crate::images::{read_object, read_world};
pub use crate::laws::{
    first_faults_are_one, images_are_of_one, images_are_spelled, images_are_valid,
    images_have_no_fault, images_have_one_spelling, images_or_faults, spelled_and_read,
};
pub use crate::parts::{ObjectParts, Pairs, Placed, Shape, Shapes, WorldParts};
pub use crate::write_images::{write_object, write_world};
