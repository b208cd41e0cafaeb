//! How much is read, and what else has a limit.

/// How much is read. Main takes the usual limits; a test may set smaller ones.
#[derive(Clone, Copy, Debug, PartialEq, Eq)]
pub struct Limits {
    /// The bytes of each object.
    pub object: u64,
    /// The weight of the rows of each Parquet object that is written.
    pub rows: u64,
    /// The bytes of the input.
    pub input: u64,
    /// The bytes of a line of the input, without its newline.
    pub line: u64,
    /// The lines of the input.
    pub lines: u64,
}

/// What has a limit.
#[derive(Clone, Copy, Debug, PartialEq, Eq)]
pub enum Which {
    /// The bytes of the input.
    Input,
    /// The bytes of a line of the input.
    InputLine,
    /// The lines of the input.
    InputLines,
    /// The version of a commit: none comes after 9,223,372,036,854,775,807.
    Version,
    /// The bytes of an object that is read or written.
    Object,
    /// The weight of the rows of a Parquet object that is written.
    Rows,
    /// The in-commit timestamp of a commit: none comes after 9,223,372,036,854,775,807.
    Time,
}

impl Limits {
    ghost use Rattle.std.specs.Prelude.{◌≡◌};
    ghost use Rattle.dk_engine.specs.Usual.{usual};

    /// The limits of the program: 256 MiB an object, rows of a weight of 2 to the 30, 256 MiB of input, 16 MiB a line, a
    /// million lines. Takes no memory.
    pub fn usual() -> Limits
        ensures { result ≡ usual }
    {
        Limits {
            object: 268_435_456,
            rows: 1_073_741_824,
            input: 268_435_456,
            line: 16_777_216,
            lines: 1_000_000,
        }
    }
}
