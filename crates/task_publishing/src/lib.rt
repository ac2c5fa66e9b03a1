//! What a task has left of the private run of its alternative becomes nodes of the shared tree: its region is taken off, bodies are made
//! of that, and the tree makes nodes of these.
//!
//! In a body cuts to choice points become cuts to the nodes that stand for them, what was deferred is shared again, and no binding is
//! copied.
#![tactic(auto)]

mod bodies;
mod branches;
mod goals;
pub mod laws;
mod publish;
mod scopes;
mod steps;
mod task;
mod task_bodies;

pub use publish::make_bodies;
pub use task::publish_task;
pub use task_bodies::bodies_of_task;
