//! The laws of checkpoints. None of these functions does anything when it runs.

ghost use Rattle.std.specs.Prelude.{[], codes, pos, true, ◌∷◌};
ghost use Rattle.dk_lawful.specs.CheckpointExample.{ClearedFloor, checkpointing, clearing, lacking_text, marked_twice_text, misnaming_text, naming, naming_text, older_marked_text, unmarked_text, whole_text};
ghost use Rattle.dk_lawful.specs.CheckpointLaws.{CheckpointMeansOne, CheckpointsStand, PartsStand, ReadCheckpointsStand};
ghost use Rattle.dk_lawful.specs.ContentLaws.{ClassicMayBeMade, ClassicStands, PartHasShare, PartMayBeMade, ShareComposes, SidecarsHaveFiles, StandingComposes, V2MayBeMade, V2SaysVersion, V2Stands};
ghost use Rattle.dk_lawful.specs.CutExample.{CutTells};
ghost use Rattle.dk_lawful.specs.Example.{IsForbidden, example, first_text, managed_text, ratifying, staged_name_1, staging};
ghost use Rattle.dk_lawful.specs.MoreExamples.{IsLawfulAfter, side_name};
ghost use Rattle.dk_lawful.specs.RowExample.{RowsMean};
ghost use Rattle.dk_paths.specs.Names.{commit_path};
ghost use Rattle.dk_paths.specs.Places.{Classic, Compacted, Part, Sidecar, Staged, V2, place_path};
ghost use Rattle.dk_paths.specs.Staged.{staged_name};
ghost use Rattle.dk_pqmodel.specs.FileMeans.{MeansOneList};
ghost use Rattle.dk_store.specs.Told.{Deleted, Made, Over, Ratified};

/// On a lawful log a checkpoint that is complete means something, and its actions lead to the state at its version, but
/// for tombstones up to the horizon: as one object with its sidecars, or as parts, whichever writers made them, at whatever
/// moments (Delta Lake's PROTOCOL.md, "Checkpoints"). Where a Parquet file means at most one list of rows, which is a
/// premise here, a checkpoint means one list of actions, so the same holds of whatever is read of it.
pub fn checkpoints_stand()
    ensures stand { CheckpointsStand }
    ensures parts { PartsStand }
    ensures one { MeansOneList → CheckpointMeansOne }
    ensures read { MeansOneList → ReadCheckpointsStand }
{}

/// What is written of a checkpoint of a well kept state leads back to it, but for tombstones up to the cut: as one object,
/// as parts of which each has its share, and in the form V2 with any number of sidecars. What stands for such a state
/// stands for the table's, where these agree, up to the greater of the cut and the horizon. Of two tombstones on both sides of a
/// cut the later one alone is written.
pub fn contents_stand()
    ensures classic { ClassicStands }
    ensures part { PartHasShare }
    ensures v2 { V2Stands }
    ensures version { V2SaysVersion }
    ensures sidecars { SidecarsHaveFiles }
    ensures stands { StandingComposes }
    ensures share { ShareComposes }
    ensures cut { CutTells }
{}

/// What is written of a checkpoint of a published version may be made, by the state that was opened there and a cut of at
/// most the horizon: a part, whoever writes the others, and, where a Parquet file means at most one list of rows, a
/// checkpoint in one object, with its sidecars.
pub fn contents_may_be_made()
    ensures part { PartMayBeMade }
    ensures classic { MeansOneList → ClassicMayBeMade }
    ensures v2 { MeansOneList → V2MayBeMade }
{}

/// Rows of checkpoints and the actions that they mean: one of each kind, files without a deletion vector, with an empty
/// one and with one, a row that says nothing, and rows that are no action (Delta Lake's PROTOCOL.md, "Checkpoint Schema").
pub fn example_rows()
    ensures mean { RowsMean }
{}

/// The example goes on with two checkpoints of the form V2 in JSON, of either version, after a compacted file; then the
/// older checkpoint, the compacted file and the first commit may go, after which the floor is version 1.
pub fn checkpoints_come_and_go()
    ensures come { IsLawfulAfter checkpointing }
    ensures go { IsLawfulAfter clearing }
    ensures floor { ClearedFloor }
{}

/// For each condition on checkpoints, on what is written over or deleted, and on what follows a ratification an event that
/// it forbids.
pub fn forbidden_checkpoints()
    // a checkpoint of a version that isn't published, that says another version than its name, none, or its own twice, that names
    // no sidecar's name, that lacks actions, or whose sidecar is absent
    ensures beyond { IsForbidden example (Made (place_path (V2 2 7 true)) whole_text (pos 2)) }
    ensures other_version { IsForbidden example (Made (place_path (V2 0 7 true)) older_marked_text (pos 2)) }
    ensures no_version { IsForbidden example (Made (place_path (V2 1 7 true)) unmarked_text (pos 2)) }
    ensures version_twice { IsForbidden example (Made (place_path (V2 1 7 true)) marked_twice_text (pos 2)) }
    ensures no_sidecar_name { IsForbidden example (Made (place_path (V2 1 7 true)) misnaming_text (pos 2)) }
    ensures does_other { IsForbidden example (Made (place_path (V2 1 7 true)) lacking_text (pos 2)) }
    ensures sidecar_absent { IsForbidden example (Made (place_path (V2 1 7 true)) naming_text (pos 2)) }

    // a classic checkpoint, or a part, that isn't a Parquet file
    ensures classic_in_json { IsForbidden example (Made (place_path (Classic 1)) (codes "{}") (pos 2)) }
    ensures part_in_json { IsForbidden example (Made (place_path (Part 1 1 2)) (codes "{}") (pos 2)) }

    // what is written over
    ensures over_checkpoint { IsForbidden example (Over (place_path (V2 1 7 true)) whole_text (pos 2)) }
    ensures over_classic { IsForbidden example (Over (place_path (Classic 1)) whole_text (pos 2)) }
    ensures over_part { IsForbidden example (Over (place_path (Part 1 1 2)) whole_text (pos 2)) }
    ensures over_compacted { IsForbidden example (Over (place_path (Compacted 0 1)) whole_text (pos 2)) }
    ensures over_sidecar { IsForbidden example (Over (place_path (Sidecar side_name)) whole_text (pos 2)) }
    ensures over_staged { IsForbidden example (Over (place_path (Staged 2 7)) whole_text (pos 2)) }

    // what is deleted with no complete checkpoint above it, or for a compacted file from its first version on
    ensures commit_of_checkpoint { IsForbidden (checkpointing example) (Deleted (commit_path 1)) }
    ensures newest_checkpoint { IsForbidden (checkpointing example) (Deleted (place_path (V2 1 7 true))) }
    ensures newest_classic { IsForbidden (checkpointing example) (Deleted (place_path (Classic 1))) }
    ensures newest_part { IsForbidden (checkpointing example) (Deleted (place_path (Part 1 1 2))) }
    ensures compacted_above { IsForbidden (checkpointing example) (Deleted (place_path (Compacted 2 3))) }

    // a sidecar that is named
    ensures named_sidecar { IsForbidden naming (Deleted (place_path (Sidecar side_name))) }

    // of a table that a catalogue manages: a staged commit that is needed, a commit that stands ratified, a ratification of
    // a staged commit that is absent or of a version that isn't the next one, and other bytes than the staged ones
    ensures staged_of_ratified { IsForbidden ratifying (Deleted (place_path (Staged 1 7))) }
    ensures ratified_commit { IsForbidden ratifying (Deleted (commit_path 1)) }
    ensures unstaged { IsForbidden (Made (commit_path 0) managed_text (pos 0) ∷ []) (Ratified 1 staged_name_1) }
    ensures ratified_beyond { IsForbidden staging (Ratified 2 (staged_name 2 7)) }
    ensures other_bytes { IsForbidden ratifying (Made (commit_path 1) first_text (pos 2)) }
{}
