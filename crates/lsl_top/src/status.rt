//! How a command ends.
ghost use Rattle.std.specs.Prelude.{◌≡◌};
ghost use Rattle.lsl_top.specs.Status.{number_of};

/// How a command ended.
#[derive(Clone, Copy, PartialEq, Eq)]
pub enum Status {
    /// All was read, run and written.
    Ok,
    /// The words aren't a command.
    Usage,
    /// The world file isn't in its grammar.
    BadWorld,
    /// A script's text isn't accepted.
    BadScript,
    /// A file wasn't read.
    ReadFault,
    /// The output wasn't written whole.
    WriteFault,
    /// The frozen file isn't of this world.
    BadImage,
    /// There was no memory.
    NoMemory,
    /// A notecard isn't one.
    BadNote,
}

impl Status {
    /// The status as the process's exit status: 0 to 8.
    pub fn number(&self) -> u8
        ensures { result ≡ number_of self.now }
    {
        *self as u8
    }
}
