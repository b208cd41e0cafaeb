//! The segment of a version and the sizes of its objects, by a listing.
ghost use Rattle.std.specs.Prelude.{◌≡◌, ◌<◌, ◌^◌, Err, IfErr, IfOk, List, None, Some};
ghost use Rattle.dk_store.specs.Told.{Told};
ghost use Rattle.dk_listing.specs.Latest.{latest_of};
ghost use Rattle.dk_listing.specs.OfEvents.{IsListingOf};
ghost use Rattle.dk_snapshot.specs.Refusals.{OpenRefuses};
ghost use Rattle.dk_snapshot.specs.SizedSegment.{IsSizedSegmentAt, IsSizedSegmentOf, sized_with};

use crate::asked::asked_version;
use crate::sizes::step_sizes;
use dk_engine::Refusal;
use dk_lawful::{Choice, Segment};
use dk_listing::Catalogued;
use dk_segment::choose_commits;
use std::alloc::{AllocError, Global};

/// The segment of a version, with the sizes of its objects.
#[derive(Drop)]
pub(crate) struct SizedSegment {
    pub version: u64,
    pub segment: Segment,
    /// The listed size of each step's object.
    pub sizes: Vec<Option<u64>>,
}

fn sized_with(
    version: u64,
    segment: Segment,
    sizes: Result<Vec<Option<u64>>, AllocError>,
) -> Result<SizedSegment, Refusal>
    ensures { result ≡ sized_with version segment sizes }
{
    match sizes {
        Err(_) => Err(Refusal::OutOfMemory),
        Ok(sizes) => Ok(SizedSegment {
            version,
            segment,
            sizes,
        }),
    }
}

/// The segment of this version, with the sizes of its objects.
fn size_segment(
    alloc: Global,
    listing: &Catalogued,
    version: u64,
    choice: &Choice,
) -> Result<SizedSegment, Refusal>
    requires { version < 2 ^ 63 }
    ensures found { (events : List Told) → IsListingOf events listing.now → IsSizedSegmentOf events choice.now version result }
    ensures version { IfOk result (λ sized_segment. sized_segment.version ≡ version) }
    ensures store { result ≡ Err Refusal.Store → ⊥ }
    ensures refusals { IfErr result (OpenRefuses None) }
{
    match choose_commits(alloc, listing, version, choice) {
        Err(refusal) => Err(refusal),
        Ok(segment) => {
            let sizes = step_sizes(alloc, listing, segment.steps.as_slice());
            sized_with(version, segment, sizes)
        }
    }
}

/// The segment of the asked version, or of the latest one, with the sizes of its objects.
pub(crate) fn find_segment(
    alloc: Global,
    listing: &Catalogued,
    at: Option<u64>,
    choice: &Choice,
) -> Result<SizedSegment, Refusal>
    ensures found { (events : List Told) → IsListingOf events listing.now → IsSizedSegmentAt events at choice.now result }
    ensures latest { at ≡ None → IfOk result (λ sized_segment. Some sized_segment.version ≡ latest_of listing.now) }
    ensures small { IfOk result (λ sized_segment. sized_segment.version < 2 ^ 63) }
    ensures store { result ≡ Err Refusal.Store → ⊥ }
    ensures refusals { IfErr result (OpenRefuses at) }
{
    match asked_version(alloc, listing.latest(), at) {
        Err(refusal) => Err(refusal),
        Ok(version) => size_segment(alloc, listing, version, choice),
    }
}

/// The same of a listing that is given up, so that it takes no memory while the segment is read.
pub(crate) fn take_segment(
    alloc: Global,
    listing: Catalogued,
    at: Option<u64>,
    choice: &Choice,
) -> Result<SizedSegment, Refusal>
    ensures found { (events : List Told) → IsListingOf events listing → IsSizedSegmentAt events at choice.now result }
    ensures small { IfOk result (λ sized_segment. sized_segment.version < 2 ^ 63) }
    ensures store { result ≡ Err Refusal.Store → ⊥ }
    ensures refusals { IfErr result (OpenRefuses at) }
{
    find_segment(alloc, &listing, at, choice)
}
