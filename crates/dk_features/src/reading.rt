//! Whether a table can be read.

ghost use Rattle.std.specs.Prelude.{◌≡◌};
ghost use Rattle.std.specs.List.{position_from};
ghost use Rattle.dk_features.specs.Support.{answer_of, is_read, is_unread, unread};

use crate::fault::{FeatureFault, FeatureList};
use crate::features::{is_both, is_reading_alone, listed};
use dk_model::{Protocol, Text};

fn is_read(name: &str) -> bool
    ensures { result ≡ is_read name.now }
{
    is_both(name) || is_reading_alone(name)
}

/// The place of the first name that isn't read.
fn first_unread(names: &[Text]) -> Option<usize>
    ensures { result ≡ position_from is_unread 0 names.now }
{
    'names: for (place, name) in names.iter().enumerate() {
        if !is_read(name.as_str()) {
            return Some(place);
        }
    }
    None
}

/// Whether tables of this protocol are read (Delta Lake's PROTOCOL.md, "Reader Requirements"); where not, the first that is
/// in the way. Reader versions 1 and 2 are read, and version 3 with features that are read. Takes no memory, and
/// so never answers `OutOfMemory`. A deletion vector beside a file isn't looked at.
pub fn can_read(protocol: &Protocol) -> Result<(), FeatureFault>
    ensures { result ≡ answer_of (unread protocol.now) }
{
    match protocol.min_reader {
        1 | 2 => Ok(()),
        3 => match first_unread(listed(&protocol.reader_features)) {
            None => Ok(()),
            Some(place) => Err(FeatureFault::Feature {
                list: FeatureList::Reader,
                place,
            }),
        },
        n => Err(FeatureFault::ReaderVersion { n }),
    }
}
