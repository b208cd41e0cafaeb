//! Laws of what is chosen. None of these functions does anything when it runs.
ghost use Rattle.dk_segment.specs.Laws.{ListingChoosesAlike, PlainChoosesCommits};

/// What [`choose`](crate::choose) takes by a listing of a store's events, a checkpoint or none and the commits and compacted files
/// behind it, is what stands there by the events, under every choice; and without checkpoints and compacted files each commit that
/// stands (Delta Lake's PROTOCOL.md, "Delta Log Entries", "Checkpoints", "Log Compaction Files", "Catalog-managed tables").
pub fn events_choose_alike()
    ensures listing { ListingChoosesAlike }
    ensures plain { PlainChoosesCommits }
{}
