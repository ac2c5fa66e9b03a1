//! Tests of the region, its control and its calls: what no clause says, outside examples, and each call that allocates once,
//! with ample memory. They are in a crate of their own because a crate with tests is proved twice.
#![tactic(auto)]

#[cfg(test)]
mod calls;
#[cfg(test)]
mod captures;
#[cfg(test)]
mod choices;
#[cfg(test)]
mod common;
#[cfg(test)]
mod controls;
#[cfg(test)]
mod regions;
#[cfg(test)]
mod solutions;
