//! Tests of the crates of programs: what no clause says, outside examples, and each call that allocates once, with ample
//! memory. They are in a crate of their own because a crate with tests is proved twice.
#![tactic(auto)]

#[cfg(test)]
mod clauses;
#[cfg(test)]
mod common;
#[cfg(test)]
mod databases;
#[cfg(test)]
mod indexed;
#[cfg(test)]
mod loaded_texts;
#[cfg(test)]
mod terms;
