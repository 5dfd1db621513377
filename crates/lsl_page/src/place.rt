//! Where the files of a request are among its bytes.
ghost use Rattle.std.specs.Prelude.{◌≡◌, ◌↔◌, ◌&&◌, IsTrue, nat_le, length};
ghost use Rattle.std.specs.Str.{bytes_eq};
ghost use Rattle.lsl_page.specs.Request.{is_in, is_named, text_in};

/// The place of a file among the bytes of a request: its name, and then its text.
#[repr(C)]
#[derive(Clone, Copy, Debug)]
pub struct Place {
    /// Where its name begins.
    pub name: usize,
    /// Where its name ends and its text begins.
    pub text: usize,
    /// Where its text ends.
    pub end: usize,
}

impl Place {
    /// Whether it lies within these bytes.
    pub fn is_in(&self, bytes: &[u8]) -> bool
        ensures { result ≡ is_in bytes.now self.now }
    {
        self.name <= self.text && self.text <= self.end && self.end <= bytes.len()
    }

    /// Whether it lies within these bytes, and is the place of a file of that name.
    pub fn is_named(&self, bytes: &[u8], name: &str) -> bool
        ensures { result ≡ is_named bytes.now name.now self.now }
    {
        self.is_in(bytes) && &bytes[self.name..self.text] == name.as_bytes()
    }

    /// The text of its file.
    pub fn text<'a>(&self, bytes: &'a [u8]) -> &'a [u8]
        requires { IsTrue (is_in bytes.now self.now) }
        ensures { result.now ≡ text_in bytes.now self.now }
    {
        &bytes[self.text..self.end]
    }
}
