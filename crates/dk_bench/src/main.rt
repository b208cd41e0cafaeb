//! `dk_bench CALL WIDTH COUNT TIMES FILE`: makes a library call over the bytes of a file, or over a table's folder, so many
//! times, and prints how many values came of it. It is run by the scripts of `bench/`, which take the times.
#![tactic(auto)]

mod calls;
mod checkpoints;
mod conflicts;
mod rows;

use std::process::ExitCode;

fn main(rt: HostRuntime) -> ExitCode {
    ExitCode::from(calls::exit_status(&rt))
}
