//! The tree of a job: the public tree whose events are a legal history of that job. Contracts see the job, with what budget and
//! window the tree was opened, and the events since; the tree of the definition after these is what each call speaks of.
//!
//! The job itself is no part of a tree at run time: its type says which one it is.
//!
//! A call by which something comes back costs what it costs in `public_tree`, and what `ended` costs: it asks first whether the
//! tree goes on, since nothing has to come back after that.
#![tactic(auto)]

mod brand;
mod closing;
mod front;
mod front_runs;
mod hand_out;
mod pruning;
mod query;
mod tree;

pub use brand::JobBrand;
pub use query::QueryGoals;
pub use tree::Tree;
