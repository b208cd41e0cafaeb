//! Makes the calls of the Parquet crates that rows of cases name, and prints the rows whose answer isn't the wanted one.
#![tactic(auto)]

mod footers;
mod levels;
mod pages;
mod rows;
mod runs;
mod thrift;

use anyhow::Result;

fn main(rt: HostRuntime) -> Result<()> {
    for name in ["thrift", "runs", "pages", "footers", "levels"] {
        rows::check_file(&rt, name)?;
    }
    Ok(())
}
