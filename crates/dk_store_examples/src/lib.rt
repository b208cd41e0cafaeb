//! Worked calls of the store in memory, of the real folder, and of sources and sinks, as tables of cases. They show
//! what no clause says: which calls a plan makes fail and what is left then, that calls with ample memory answer, and
//! that a folder answers as a store in memory does.
#![tactic(auto)]

#[cfg(test)]
mod calls;
#[cfg(test)]
mod folder;
#[cfg(test)]
mod planned;
#[cfg(test)]
mod streams;
