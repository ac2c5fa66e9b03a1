//! Tests of the machine and its world, of runs in a region, and of how runs end: what no clause says, outside examples, and each call
//! that allocates once, with ample memory. They are in a crate of their own because a crate with tests is proved twice.
#![tactic(auto)]

#[cfg(test)]
mod effect_rows;
#[cfg(test)]
mod effects;
#[cfg(test)]
mod endings;
#[cfg(test)]
mod region_runs;
#[cfg(test)]
mod runs;
