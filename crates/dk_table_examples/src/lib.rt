//! Worked listings and worked stores, by the calls that open a version and write its checkpoint. What is wanted was written
//! by hand from the rules of the format, never taken from the program's own output.
#![tactic(auto)]

#[cfg(test)]
mod checkpoints;
#[cfg(test)]
mod listings;
#[cfg(test)]
mod opening;
