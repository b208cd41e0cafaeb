//! What the commands work over: a store, the handlers of formats and the limits, all handed in by the caller; and why a
//! call over them gives no answer.
#![tactic(auto)]

mod engine;
mod handlers;
mod limits;
mod refusal;

pub use engine::Engine;
pub use handlers::{JsonHandler, ParquetHandler};
pub use limits::{Limits, Which};
pub use refusal::Refusal;
