//! Laws of paths and names that the crates above rest on.

ghost use Rattle.dk_paths.specs.Order.{VersionsOrderCommits, VersionsOrderTexts};
ghost use Rattle.dk_paths.specs.Places.{PathOfPlace, PlaceOfPath};

/// A law on the definitions of `specs/Places.antt`, for the crates above: the place of a spelling (Delta Lake's PROTOCOL.md,
/// "File Types") is that place, and a path is the spelling of its place. It does nothing when it runs.
pub fn places_have_one_path()
    ensures place { PlaceOfPath }
    ensures path { PathOfPlace }
{}

/// A law on the definitions of `specs/Order.antt`, for the crates above: names that begin with versions (Delta Lake's
/// PROTOCOL.md, "Delta Log Entries") stand in byte order as their versions do, and those of commits just so. It does
/// nothing when it runs.
pub fn names_stand_as_versions()
    ensures texts { VersionsOrderTexts }
    ensures commits { VersionsOrderCommits }
{}
