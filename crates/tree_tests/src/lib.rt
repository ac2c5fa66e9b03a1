//! Tests of the crates of the shared tree: what no clause says, outside examples, and each call that allocates once, with
//! ample memory. They are in a crate of their own because a crate with tests is proved twice.
#![tactic(auto)]

#[cfg(test)]
mod answers;
#[cfg(test)]
mod asks;
#[cfg(test)]
mod closings;
#[cfg(test)]
mod falls;
#[cfg(test)]
mod hand_outs;
#[cfg(test)]
mod large;
#[cfg(test)]
mod looks;
#[cfg(test)]
mod nodes;
#[cfg(test)]
mod pruning;
#[cfg(test)]
mod readings;
#[cfg(test)]
mod results;
#[cfg(test)]
mod sides;
#[cfg(test)]
mod trails;
#[cfg(test)]
mod trees;
