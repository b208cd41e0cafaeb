//! The rules of a commit, tested, and the features that a commit may ask for and that aren't written so far.
#![tactic(auto)]

mod awaited_feature;
mod rules;

pub use awaited_feature::awaited_after;
pub use rules::first_broken;
