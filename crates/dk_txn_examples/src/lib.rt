//! Commits by transactions, over stores in memory: each case is a list of steps with the answer that each is to give. Others
//! come in between, stores fail, answers are lost, and what stood is cleaned up.
#![tactic(auto)]

#[cfg(test)]
mod answers;
#[cfg(test)]
mod cases;
#[cfg(test)]
mod contended;
#[cfg(test)]
mod steps;
