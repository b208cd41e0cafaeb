//! `dk_cases` makes the calls that the rows of its files ask for, and says how many of them answered as is wanted. A row is a
//! JSON object on a line: the name of a call, what it is given, and the wanted answer as a text.
#![tactic(auto)]

mod actions;
mod answers;
mod conflicts;
mod features;
mod files;
mod hints;
mod names;
mod row;
mod states;
mod sums;
mod trouble;

use std::process::ExitCode;

fn main(rt: HostRuntime) -> ExitCode {
    ExitCode::from(files::exit_status(&rt))
}
