//! What the programs share: the files of the system, its outputs, a link within one process, the words of a command
//! line, and what is printed when a command doesn't end well.
#![tactic(auto)]

mod copying_link;
mod counting;
mod file_shelf;
mod notice;
mod output_sink;
mod words;

pub use crate::copying_link::CopyingLink;
pub use crate::file_shelf::FileShelf;
pub use crate::notice::say;
pub use crate::output_sink::OutputSink;
pub use crate::words::{behind_name, command_line, refuse_words};
