//! Small images, before their digests, and parts of images. Each example is a function whose clauses say it; it does
//! nothing.

ghost use Rattle.std.specs.Prelude.{◌≡◌, [], codes, map};
ghost use Rattle.lsl_code.specs.Units.{event_number};
ghost use Rattle.lsl_image.specs.Bytes.{fault_number, rest_bytes, script_bytes};
ghost use Rattle.lsl_image.specs.Examples.{bare_bytes, bare_object, bare_shape, empty_world, empty_world_bytes, later_world_bytes};
ghost use Rattle.lsl_image.specs.Examples.{busy_bytes, busy_script, each_event, each_fault, numbers_up_to, saved_bytes, saved_touch};
ghost use Rattle.lsl_image.specs.Object.{object};
ghost use Rattle.lsl_image.specs.Spelling.{Spells};
ghost use Rattle.lsl_image.specs.World.{world};

/// A world without objects at 1 millisecond, in either version: 23 bytes, and 55 with the digest.
pub fn world_without_objects()
    ensures first { Spells (world [] [] 23) 0 empty_world empty_world_bytes }
    ensures second { Spells (world [] [] 23) 0 empty_world later_world_bytes }
{}

/// An object of one prim in the region `A`, without scripts: 45 bytes, and 77 with the digest.
pub fn object_without_scripts()
    ensures { Spells (object (codes "A") bare_shape [] 45) 0 bare_object bare_bytes }
{}

/// A script that is leaving its state, with globals, a touch that waits, a listen and a timer, which stopped for good,
/// after its digest: 99 bytes in version 2.
pub fn script_in_bytes()
    ensures { script_bytes 2 [] busy_script ≡ busy_bytes }
{}

/// A handler of a touch that was cut, with one saved call.
pub fn saved_call_in_bytes()
    ensures { rest_bytes saved_touch ≡ saved_bytes }
{}

/// The numbers of faults and events, from 1.
pub fn faults_and_events_are_numbered()
    ensures faults { map fault_number each_fault ≡ numbers_up_to 3 }
    ensures events { map event_number each_event ≡ numbers_up_to 12 }
{}
