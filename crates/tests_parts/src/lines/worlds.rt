//! What a good world file says, a line for each thing.

use crate::shown::Shown;
use lsl_lines::{ObjectLine, PrimLine, Step, WorldFile, read_world};
use lsl_text::Refusal;
use lsl_value::Text;
use std::alloc::AllocError;

/// Shows what a file says; false where it is refused.
pub fn show(shown: &mut Shown, bytes: &[u8]) -> Result<bool, AllocError> {
    match read_world(shown.alloc(), bytes) {
        Ok(file) => {
            show_file(shown, &file);
            Ok(true)
        }
        Err(Refusal::Fault(_)) => Ok(false),
        Err(Refusal::NoMemory) => Err(AllocError),
    }
}

fn show_file(shown: &mut Shown, file: &WorldFile) {
    for object in file.objects.as_slice() {
        show_object(shown, object);
    }
    for name in file.files.as_slice() {
        shown.add("file ");
        shown.add(name.as_str());
        shown.add("\n");
    }
    for step in file.steps.as_slice() {
        show_step(shown, step);
    }
}

/// A word and two texts.
fn show_texts(shown: &mut Shown, word: &str, first: &Text, second: &Text) {
    shown.add(word);
    shown.add(first.as_str());
    shown.add(" ");
    shown.add(second.as_str());
}

fn show_object(shown: &mut Shown, object: &ObjectLine) {
    show_texts(shown, "object ", &object.owner, &object.region);
    shown.add("\n");
    for prim in object.prims.as_slice() {
        show_prim(shown, prim);
    }
}

fn show_prim(shown: &mut Shown, prim: &PrimLine) {
    show_texts(shown, "prim ", &prim.key, &prim.name);
    shown.add("\n");
    for script in prim.scripts.as_slice() {
        shown.add("script ");
        shown.add(script.name.as_str());
        shown.add(" ");
        shown.put(&script.file);
        shown.add("\n");
    }
}

/// A word and a number.
fn show_number(shown: &mut Shown, word: &str, number: i64) {
    shown.add(word);
    shown.put(&number);
}

fn show_step(shown: &mut Shown, step: &Step) {
    match step {
        Step::Clock(time) => {
            shown.add("clock ");
            shown.put(time);
        }
        Step::Say(channel, name, key, text) => {
            show_number(shown, "say ", i64::from(*channel));
            show_texts(shown, " ", name, key);
            shown.add(" ");
            shown.add(text.as_str());
        }
        Step::Touch(object, link, key, name) => {
            show_number(shown, "touch ", i64::from(*object));
            show_number(shown, " ", i64::from(*link));
            show_texts(shown, " ", key, name);
        }
        Step::Changed(object, flags) => {
            show_number(shown, "changed ", i64::from(*object));
            show_number(shown, " ", i64::from(*flags));
        }
        Step::Rez(object, start) => {
            show_number(shown, "rez ", i64::from(*object));
            show_number(shown, " ", i64::from(*start));
        }
        Step::Go(script, ticks) => {
            show_number(shown, "go ", i64::from(*script));
            show_number(shown, " ", i64::from(*ticks));
        }
        Step::Run(ticks) => show_number(shown, "run ", i64::from(*ticks)),
        Step::Pause(gaps) => {
            shown.add("pause ");
            shown.put(&gaps.len());
        }
        Step::Cross(object, region) => {
            show_number(shown, "cross ", i64::from(*object));
            shown.add(" ");
            shown.add(region.as_str());
        }
    }
    shown.add("\n");
}
