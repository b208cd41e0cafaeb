//! How names and the numbers in them are printed.

ghost use Rattle.std.specs.Prelude.{Some};

use crate::LogName;
use std::fmt;
use uuid::Uuid;

/// A version in a name: 20 digits.
#[derive(Drop)]
pub struct Version(pub u64);

impl fmt::Display for Version {
    ghost use Rattle.dk_paths.specs.Numbers.{version_text};

    ghost output = { λ version. Some (version_text version.0) };

    fn fmt<W: fmt::Write>(&self, f: &mut fmt::Formatter<W>) -> fmt::Result {
        let number = self.0;
        write!(f, "{number:020}")
    }
}

/// A part number in a name: 10 digits.
#[derive(Drop)]
pub struct PartNumber(pub u32);

impl fmt::Display for PartNumber {
    ghost use Rattle.dk_paths.specs.Numbers.{part_text};

    ghost output = { λ part. Some (part_text part.0) };

    fn fmt<W: fmt::Write>(&self, f: &mut fmt::Formatter<W>) -> fmt::Result {
        let number = self.0;
        write!(f, "{number:010}")
    }
}

/// A part number and the count of parts, with a dot between them.
#[derive(Drop)]
pub struct PartPair {
    pub part: u32,
    pub parts: u32,
}

impl fmt::Display for PartPair {
    ghost use Rattle.dk_paths.specs.Names.{part_pair};

    ghost output = { λ pair. Some (part_pair pair.part pair.parts) };

    fn fmt<W: fmt::Write>(&self, f: &mut fmt::Formatter<W>) -> fmt::Result {
        let (part, parts) = (PartNumber(self.part), PartNumber(self.parts));
        write!(f, "{part}.{parts}")
    }
}

/// A UUID in a name: lower case with hyphens.
#[derive(Drop)]
pub struct Id(pub u128);

impl fmt::Display for Id {
    ghost use Rattle.dk_paths.specs.Numbers.{id_text};

    ghost output = { λ id. Some (id_text id.0) };

    fn fmt<W: fmt::Write>(&self, f: &mut fmt::Formatter<W>) -> fmt::Result {
        let id = Uuid::from_u128(self.0);
        write!(f, "{id}")
    }
}

impl fmt::Display for LogName {
    ghost use Rattle.dk_paths.specs.Names.{spelling};

    ghost output = { λ name. Some (spelling name) };

    /// Prints the name; `Other` has none and prints nothing.
    fn fmt<W: fmt::Write>(&self, f: &mut fmt::Formatter<W>) -> fmt::Result {
        match *self {
            LogName::Commit { version } => {
                let version = Version(version);
                write!(f, "{version}.json")
            }
            LogName::Classic { version } => {
                let version = Version(version);
                write!(f, "{version}.checkpoint.parquet")
            }
            LogName::Part {
                version,
                part,
                parts,
            } => {
                let (version, pair) = (Version(version), PartPair { part, parts });
                write!(f, "{version}.checkpoint.{pair}.parquet")
            }
            LogName::V2Json { version, id } => {
                let (version, id) = (Version(version), Id(id));
                write!(f, "{version}.checkpoint.{id}.json")
            }
            LogName::V2Parquet { version, id } => {
                let (version, id) = (Version(version), Id(id));
                write!(f, "{version}.checkpoint.{id}.parquet")
            }
            LogName::Compacted { first, last } => {
                let (first, last) = (Version(first), Version(last));
                write!(f, "{first}.{last}.compacted.json")
            }
            LogName::Hint => write!(f, "_last_checkpoint"),
            LogName::Other => Ok(()),
        }
    }
}
