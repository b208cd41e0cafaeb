//! Reads checkpoints that other producers could have made, and prints those that don't mean what is wanted. They are rows of a file beside
//! the program: a JSON object on each line, with a name, a file in hexadecimal digits, and the wanted answer as a text.
#![tactic(auto)]

mod answer;
mod row;
mod rows;

use anyhow::Result;

fn main(rt: HostRuntime) -> Result<()> {
    rows::check(&rt)
}
