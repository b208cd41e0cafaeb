//! `dk_pqfiles`: reads the cases that lie in files beside it, makes their calls, and prints for each file how many came as wanted, and
//! those that didn't.
#![tactic(auto)]

mod calls;
mod cells;
mod fields;
mod files;
mod trouble;

use std::process::ExitCode;

fn main(rt: HostRuntime) -> ExitCode {
    ExitCode::from(files::exit_status(&rt))
}
