//! The law of a table's log: which events of a store are permitted after which, the one history that a log
//! of permitted events means, and that nothing that is needed ever goes. All of it is said of events alone.
#![tactic(auto)]

mod actor_laws;
mod checkpoint_laws;
mod id_laws;
pub mod laws;
mod segment;
mod segment_laws;

pub use actor_laws::{actors_at_work, others_stay_fit};
pub use checkpoint_laws::{
    checkpoints_come_and_go, checkpoints_stand, contents_may_be_made, contents_stand, example_rows,
    forbidden_checkpoints,
};
pub use id_laws::ids_stand_once;
pub use laws::{
    broken_rules, calls_keep_the_law, example_goes_on, example_histories, example_is_lawful,
    forbidden_events, history_only_grows, log_is_the_history, managed_tables, needed_stays,
    next_commit_is_added, permitted_one_by_one, ratified_backlog, ratified_stays,
    rules_of_a_commit,
};
pub use segment::{CheckpointRef, Checkpoints, Choice, Segment, Step, StepList};
pub use segment_laws::{segments_agree, versions_stay_kept};
