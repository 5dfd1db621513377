//! A text that grows by what is shown.

use std::alloc::{AllocError, Global};
use std::fmt::{Debug, Display};

/// A text that is shown. If memory ran out, a part is missing, and `into_text` says so: code that shows a part need
/// not.
#[derive(Drop)]
pub struct Shown {
    text: String,
    lacks: bool,
}

impl Shown {
    pub fn new(alloc: Global) -> Shown {
        Shown {
            text: String::new(alloc),
            lacks: false,
        }
    }

    pub fn alloc(&self) -> Global {
        *self.text.allocator()
    }

    pub fn add(&mut self, part: &str) {
        let added = self.text.push_str(part);
        self.note(added);
    }

    pub fn put<T: Display>(&mut self, part: &T) {
        let added = write!(self.text, "{part}");
        self.note(added);
    }

    pub fn debug<T: Debug>(&mut self, part: &T) {
        let added = write!(self.text, "{part:?}");
        self.note(added);
    }

    /// A byte in two hexadecimal digits.
    pub fn hex(&mut self, byte: u8) {
        let added = write!(self.text, "{byte:02x}");
        self.note(added);
    }

    /// Notes whether a part was added.
    pub fn note(&mut self, added: Result<(), AllocError>) {
        if added.is_err() {
            self.lacks = true;
        }
    }

    /// The text, if it is whole.
    pub fn into_text(self) -> Result<String, AllocError> {
        if self.lacks {
            return Err(AllocError);
        }
        Ok(self.text)
    }
}
