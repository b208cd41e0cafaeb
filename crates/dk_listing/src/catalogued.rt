//! A listing of the log, sorted by what it says.
ghost use Rattle.std.specs.Prelude.{◌≡◌, ◌<◌, ◌^◌, All, true};
ghost use Rattle.dk_listing.specs.Newest.{complete_checkpoints, is_rising, version_named};

use crate::named::{Named, Staged};
use crate::newest::{later, newest_commit, newest_named, newest_ratified};
use dk_paths::LogName;
use dk_store::Ratification;

/// What a listing of the log, its staged commits and the catalogue says. [`group`](crate::group) makes it.
#[derive(Drop)]
pub struct Catalogued {
    /// The entries of `_delta_log`, in the order of the listing.
    pub log: Vec<Named>,
    /// The staged commits, in the order of the listing.
    pub staged: Vec<Staged>,
    /// The ratifications that stand, in the order of the catalogue.
    pub ratified: Vec<Ratification>,
    /// Each complete checkpoint by the name that begins it.
    pub(crate) checkpoints: Vec<LogName>,
    ghost names_small: { All (λ named. version_named named.name < 2 ^ 63) log.items },
    ghost names_rise: { All (λ named. is_rising named.name ≡ true) log.items },
    ghost ratified_small: { All (λ r. r.version < 2 ^ 63) ratified.items },
    ghost complete: { checkpoints.items ≡ complete_checkpoints log.items },
}

impl Catalogued {
    ghost use Rattle.std.specs.Prelude.{IfSome};
    ghost use Rattle.dk_listing.specs.Latest.{latest_of, published_of};
    ghost use Rattle.dk_listing.specs.Newest.{complete_checkpoints, newest_checkpoint};

    /// The complete checkpoints, each by the name that begins it, in the order of the listing: of one in parts that of its
    /// first part (Delta Lake's PROTOCOL.md, "Checkpoints"). Takes no memory.
    pub fn complete_checkpoints(&self) -> &[LogName]
        ensures { result.now ≡ complete_checkpoints self.now.log.items }
    {
        self.checkpoints.as_slice()
    }

    /// The greatest version of a complete checkpoint.
    fn newest_checkpoint(&self) -> Option<u64>
        ensures { result ≡ newest_checkpoint self.now.log.items }
    {
        newest_named(self.complete_checkpoints())
    }

    ghost use Rattle.dk_listing.specs.Newest.{is_rising};

    /// That each compacted file of the log ends at a later version than it begins with. Does nothing when it runs.
    pub fn note_rising(&self)
        ensures { All (λ named. is_rising named.name ≡ true) self.now.log.items }
    {}

    /// The greatest version of a commit, of a ratification that stands, or of a complete checkpoint. Takes no memory.
    pub fn latest(&self) -> Option<u64>
        ensures value { result ≡ latest_of self.now }
        ensures small { IfSome result (λ version. version < 2 ^ 63) }
    {
        later(
            later(newest_commit(&self.log), self.newest_checkpoint()),
            newest_ratified(&self.ratified),
        )
    }

    /// The greatest version of a commit in the log's own folder. Takes no memory.
    pub fn published(&self) -> Option<u64>
        ensures value { result ≡ published_of self.now }
        ensures small { IfSome result (λ version. version < 2 ^ 63) }
    {
        newest_commit(&self.log)
    }
}
