//! Whether commits that came in between are in the way of one's own: optimistic concurrency (Delta Lake's PROTOCOL.md, "ACID
//! guarantees").
#![tactic(auto)]

mod claims;
mod reads;
mod topic;

pub use claims::Claims;
pub use reads::Reads;
