//! What is deferred.
use au_term::Shared;

/// An item that a task's alternative had when it was handed out. Scopes and marks are heights over the branch: how many of
/// its nodes a cut leaves, and how many are above that of a catch or a findall.
#[derive(Drop)]
pub enum DeferredItem {
    /// A goal, and how many nodes a cut in it leaves.
    Goal { term: Shared, cut: u32 },
    /// The end of what a catch guards.
    CatchEnd(u32),
    /// A result for a findall.
    Collect { template: Shared, over: u32 },
    /// The removal of the clause with a number.
    Removal(u64),
}
