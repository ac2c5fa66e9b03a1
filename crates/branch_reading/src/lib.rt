//! What the alternatives of the shared tree read as: what is left to do on a branch, by the goals of its last node and by what
//! all nodes on the way down to it have bound (Warren 1987); and the nodes of queries.
#![tactic(auto)]

pub mod laws;
pub mod queries;

pub use queries::{end_body, query_body};
