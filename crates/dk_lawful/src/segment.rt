//! Which objects a version of a table is read from, and how they are chosen.

ghost use Rattle.std.specs.Prelude.{◌≡◌};

use dk_model::{Names, Text};
use std::marker::Model;

/// A checkpoint, by the whole paths of its objects (Delta Lake's PROTOCOL.md, "Checkpoints").
#[derive(Drop)]
pub enum CheckpointRef {
    /// In one object.
    Classic {
        version: u64,
        path: Text,
    },
    /// In so many parts, at least one, with a path each, from part 1 up.
    Parts {
        version: u64,
        parts: u32,
        paths: Names,
    },
    /// In one object that is named by a UUID, in JSON or in Parquet.
    V2 {
        version: u64,
        path: Text,
        json: bool,
    },
}

/// Which checkpoints may be chosen.
#[derive(Clone, Copy)]
pub enum Checkpoints {
    /// None.
    No,
    /// The newest of at most the version that is opened.
    Newest,
    /// The newest of at most this version, and of at most the version that is opened.
    AtMost(u64),
}

/// What may be chosen where a version can be read in more than one way.
#[derive(Clone, Copy)]
pub struct Choice {
    /// Which checkpoints may stand for the commits up to their version.
    pub checkpoints: Checkpoints,
    /// Whether a compacted file may stand for its commits ("Log Compaction Files").
    pub compacted: bool,
    /// Whether a commit that is both published and still ratified is read from its staged object, where that is listed
    /// ("Catalog-managed tables").
    pub staged_first: bool,
}

/// One object that a version is read from, by its whole path.
#[derive(Drop)]
pub enum Step {
    /// The commit of a version, published or staged.
    Commit { version: u64, path: Text },
    /// The sum of the commits from `first` to `last`, both included.
    Compacted { first: u64, last: u64, path: Text },
}

/// A list of steps, which contracts see as the list itself.
#[derive(Drop)]
pub struct StepList {
    list: Vec<Step>,
}

impl Model for StepList {
    ghost use Rattle.std.specs.Prelude.{List};
    ghost use Rattle.dk_lawful.specs.declared.segment.Step.{Step};

    ghost Value = { List Step };

    ghost view = { λ s. s.list.items };
}

impl StepList {
    /// The steps, in ascending order of their versions; nothing is copied.
    pub fn new(list: Vec<Step>) -> StepList
        ensures { result ≡ list.items }
    {
        StepList { list }
    }

    /// The steps, lent.
    pub fn as_slice(&self) -> &[Step]
        ensures { result.now ≡ self.now }
    {
        self.list.as_slice()
    }

    /// The steps by value, with no copy.
    pub fn into_vec(self) -> Vec<Step>
        ensures { result.items ≡ self }
    {
        self.list
    }
}

/// What a version is read from: a checkpoint, or nothing, and the commits after it.
#[derive(Drop)]
pub struct Segment {
    /// The checkpoint that the steps go on from; without one they begin at version 0.
    pub base: Option<CheckpointRef>,
    /// In ascending order of their versions.
    pub steps: StepList,
}
