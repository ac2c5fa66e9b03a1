//! What a task starts with.
use crate::deferred::DeferredItem;

/// How many nodes are on its branch, how many variables there were when it was handed out, and what its alternative had left
/// to do.
#[derive(Drop)]
pub(crate) struct TaskStart {
    pub(crate) floor: u32,
    pub(crate) variables: u32,
    pub(crate) deferred: Vec<DeferredItem>,
}
