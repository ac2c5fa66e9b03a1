//! The public part of the tree that workers share: its nodes, who has what of it, and the events so far. Contracts speak of
//! each tree of the definition for which it stands.
//!
//! `claim` and `resume` cost what `leftmost_ready` and `leftmost_cleared` of `branch_order` cost, `rest_of` and
//! `rest_of_answer` what folds, `close` and `close_at_front` what they drop, and `publish`, `go_on_at_front` and `open_query`
//! the alternatives of their nodes. `cut`, `fall` and `fall_at_front` cost what `prune_ops` says, the test that the alternative
//! is cleared or the leftmost entry, and a walk over what they take away, which gathers the tasks that are out there; they take
//! their memory before they change anything. The rest does not depend on the size of the tree. A task that goes out has room
//! in the log for the event by which it comes back, and a stop has room at any time: neither takes memory.
#![tactic(auto)]

mod answering;
mod answering_at_once;
mod closing;
mod event_log;
mod hand_out;
pub mod laws;
mod lost;
mod open;
mod prune;
mod pruned_tasks;
mod public;
mod publishing;

pub use answering::Answering;
pub use answering_at_once::RunAnswering;
pub use closing::TaskEnd;
pub use prune::Pruning;
pub use public::PublicTree;
