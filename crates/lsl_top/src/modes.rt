//! How a world is played.

use crate::positions::Position;
use lsl_view::Names;

/// What is printed at the end of a run.
#[derive(Clone, Copy)]
pub enum Last<'a> {
    /// Where each object is.
    Homes,
    /// The world, frozen.
    Frozen,
    /// All that the world holds, with these names of scripts and globals.
    Inspected(&'a Names),
}

/// From where a world is played, and what is printed at its end.
#[derive(Clone, Copy)]
pub enum Mode<'a> {
    /// From the file's start; then prints where each object is.
    Whole,
    /// From the file's start, where objects are handed over by notes; then prints where each object is.
    Handing,
    /// From the file's start; then freezes the world.
    Freezing,
    /// From the file's start up to a position, or to the end of its steps; then shows all that the world holds.
    Inspecting(Option<Position>),
    /// From the frozen world of the file of this name; then prints where each object is.
    Thawing(&'a str),
    /// Runs nothing: shows where the scripts are in their code, in the frozen world of the file of this name.
    Viewing(&'a str),
}
