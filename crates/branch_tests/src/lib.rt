//! Tests of what a worker does with an alternative of the shared tree: small programs whose alternatives are loaded and run, and regions
//! that are taken off. They are in a crate of their own because a crate with tests is proved twice.
#![tactic(auto)]

#[cfg(test)]
mod bodies;
#[cfg(test)]
mod branches;
#[cfg(test)]
mod captures;
#[cfg(test)]
mod common;
#[cfg(test)]
mod loadable;
#[cfg(test)]
mod loads;
#[cfg(test)]
mod regions;
#[cfg(test)]
mod task_bodies;
#[cfg(test)]
mod tasks;
