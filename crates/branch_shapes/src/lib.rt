//! How what a region has left becomes nodes of the shared tree, as laws. It is entries in groups, one group for each choice
//! point; a body for each group, below the first branch of the one before, reads as the nodes that a private run becomes.
//!
//! What one inference at a gate leaves of an alternative, where it binds nothing, is the goals behind the first one, as the body of a
//! node of one branch. So a cut that has become legal is taken without a region.
#![tactic(auto)]

pub mod laws;
mod rest;
pub mod step_laws;

pub use rest::rest_body;
