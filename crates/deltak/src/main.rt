//! `deltak FOLDER WORDS`: carries out a command over the table in a folder. `run` of the crate `dk_cli` says what is
//! promised of it; this program adds the folder, the clock, the random bytes and the line on standard error.
#![tactic(auto)]

mod early;
mod folder;
mod program;

use std::process::ExitCode;

fn main(rt: HostRuntime) -> ExitCode {
    ExitCode::from(program::exit_status(&rt))
}
