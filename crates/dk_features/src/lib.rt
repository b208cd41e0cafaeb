//! Which tables are read and written, by the features that their protocols ask for (Delta Lake's PROTOCOL.md,
//! "Table Features").
#![tactic(auto)]

mod fault;
mod features;
mod forms;
mod naming;
mod reading;
mod schema;
mod writing;

pub use fault::{FeatureFault, FeatureList};
pub use features::is_in_force;
pub use forms::{has_form, keeps_features};
pub use naming::{unread_name, unwritten_name};
pub use reading::can_read;
pub use writing::{can_write, can_write_with};
