//! What can be wrong with a world file.

/// A fault of a world file.
#[derive(Clone, Copy, PartialEq, Eq, Hash)]
pub enum FileKind {
    /// The line has no form, or is in the wrong part of the file.
    BadLine,
    /// The file ends without a `begin`.
    NoBegin,
    /// The file ends after `begin`, but without an `end`.
    NoEnd,
    /// There is no object, script or prim of that number.
    Unknown,
    /// An object, prim, script or step beyond its limit.
    TooMany,
    /// A clock below the last one.
    ClockBack,
    /// The file has more than 1,048,576 bytes.
    TooLong,
    /// The key of an object or prim that an earlier one has.
    DoubleKey,
}

impl FileKind {
    ghost use Rattle.std.specs.Prelude.{◌≡◌};
    ghost use Rattle.lsl_lines.specs.Faults.{number_of_kind};

    /// The fault's number, as it is printed.
    pub fn number(&self) -> u8
        ensures { result ≡ number_of_kind self.now }
    {
        match self {
            FileKind::BadLine => 50,
            FileKind::NoBegin => 51,
            FileKind::NoEnd => 52,
            FileKind::Unknown => 53,
            FileKind::TooMany => 54,
            FileKind::ClockBack => 55,
            FileKind::TooLong => 56,
            FileKind::DoubleKey => 57,
        }
    }
}

/// A fault of a world file, and its line: the first is 1, and a file that is too long has 0.
#[derive(Clone, Copy, PartialEq, Eq)]
pub struct FileFault {
    pub kind: FileKind,
    pub line: u32,
}
