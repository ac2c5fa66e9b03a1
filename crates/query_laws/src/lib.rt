//! Why the goals of a job's next query are told by the branch on which the query before it ends: a tree has a node for each query
//! that has been opened, and they all are on the way down to whatever is pending. None of it runs.
#![tactic(auto)]

pub mod laws;
