//! Laws of what is read of checkpoints, each without a premise on Parquet files. None of these functions does anything when it runs.

ghost use Rattle.std.specs.Prelude.{pos, true};
ghost use Rattle.dk_ckread.specs.ParquetExample.{first_part, in_one_object, in_parts, parts_in_use, top_in_parquet, with_sidecar};
ghost use Rattle.dk_ckread.specs.ParquetFiles.{add_file, head_file, side_file, top_file};
ghost use Rattle.dk_ckread.specs.ParquetRows.{add_rows, head_rows, side_rows, top_rows};
ghost use Rattle.dk_ckread.specs.ReadLaws.{MeantIsRead, ReadIsMeant};
ghost use Rattle.dk_ckread.specs.SidecarExample.{other_sidecar, other_text, sidecar_gone};
ghost use Rattle.dk_lawful.specs.CheckpointLaws.{CheckpointMeansOne, ReadCheckpointsStand};
ghost use Rattle.dk_lawful.specs.ContentLaws.{ClassicMayBeMade, V2MayBeMade};
ghost use Rattle.dk_lawful.specs.CheckpointSchema.{read_fields};
ghost use Rattle.dk_lawful.specs.Example.{IsForbidden, example};
ghost use Rattle.dk_lawful.specs.MoreExamples.{IsLawfulAfter};
ghost use Rattle.dk_lawful.specs.Openable.{EachFromFloorIsKept};
ghost use Rattle.dk_lawful.specs.SegmentLaws.{ReadAgrees};
ghost use Rattle.dk_paths.specs.Places.{Part, V2, place_path};
ghost use Rattle.dk_pqmodel.specs.FileMeans.{FileMeans};
ghost use Rattle.dk_store.specs.Told.{Made};

/// A checkpoint means at most one list of actions, in one object with its sidecars or in parts. So whatever is read of a complete
/// checkpoint of a lawful log stands for the state at its version, but that it may leave out expired tombstones (Delta Lake's
/// PROTOCOL.md, "Checkpoints").
pub fn checkpoints_mean_one()
    ensures one { CheckpointMeansOne }
    ensures read { ReadCheckpointsStand }
{}

/// What [`crate::read_classic`] answers of a checkpoint is what it means, so on a lawful log it stands for the state at its
/// version. And where a checkpoint means actions, none of which names a sidecar, and its object is within the limit, these are
/// answered, but for faults of the store and want of memory (Delta Lake's PROTOCOL.md, "Checkpoints").
pub fn read_is_meant()
    ensures answered { ReadIsMeant }
    ensures meant { MeantIsRead }
{}

/// Whatever a version of a lawful log is read from, a complete checkpoint or none and then commits and compacted files, leads to
/// the state of the history at the version, but for expired tombstones (Delta Lake's PROTOCOL.md, "Action Reconciliation").
pub fn segments_agree()
    ensures { ReadAgrees }
{}

/// What is written of a checkpoint in one object, with its sidecars, may be made, by the state that was opened at its published
/// version and a cut of at most the horizon (Delta Lake's PROTOCOL.md, "Checkpoints").
pub fn contents_may_be_made()
    ensures classic { ClassicMayBeMade }
    ensures v2 { V2MayBeMade }
{}

/// Small Parquet files, byte by byte, and the rows that they mean of the schema of checkpoints: a protocol and a table's metadata,
/// a data file, a sidecar's name, and a version with a protocol and metadata (Delta Lake's PROTOCOL.md, "Checkpoint Schema").
pub fn example_files()
    ensures head { FileMeans read_fields head_file head_rows }
    ensures add { FileMeans read_fields add_file add_rows }
    ensures side { FileMeans read_fields side_file side_rows }
    ensures top { FileMeans read_fields top_file top_rows }
{}

/// Checkpoints of these files come lawfully after the example: in one object; in two parts, each with its share, after which the first
/// commit may go; and in the form V2 with a sidecar that stands, which goes after its checkpoint, below a newer one; and one of that
/// form in Parquet (Delta Lake's PROTOCOL.md, "Checkpoints").
pub fn checkpoints_in_parquet_come()
    ensures in_one_object { IsLawfulAfter in_one_object }
    ensures in_parts { IsLawfulAfter in_parts }
    ensures parts_in_use { IsLawfulAfter parts_in_use }
    ensures with_sidecar { IsLawfulAfter with_sidecar }
    ensures top_in_parquet { IsLawfulAfter top_in_parquet }
    ensures sidecar_gone { IsLawfulAfter sidecar_gone }
{}

/// On a lawful log each version of the history from the floor on can be opened, for every choice with the newest checkpoint: no
/// commit is missing of what it is read from, and each sidecar that its checkpoint names stands (Delta Lake's PROTOCOL.md, "Metadata
/// Cleanup").
pub fn versions_stay_kept()
    ensures { EachFromFloorIsKept }
{}

/// Parts in Parquet that may not come: one that has another part's share, one of a version that isn't published, and one that
/// names a sidecar. And a checkpoint of the form V2 that would be whole, but that its sidecar has other rows than those of files
/// (Delta Lake's PROTOCOL.md, "Multi-part checkpoint", "V2 Spec").
pub fn forbidden_parts()
    ensures other_share { IsForbidden (first_part example) (Made (place_path (Part 1 2 2)) head_file (pos 3)) }
    ensures beyond { IsForbidden example (Made (place_path (Part 2 1 2)) head_file (pos 3)) }
    ensures names_sidecar { IsForbidden example (Made (place_path (Part 0 2 2)) side_file (pos 2)) }
    ensures other_rows { IsForbidden (other_sidecar example) (Made (place_path (V2 1 7 true)) other_text (pos 3)) }
{}
