//! What is left to do of one alternative (a continuation of ISO/IEC 13211-1, 7.7.2).
use au_term::{FlatTerm, Shared};

/// A choice point: a node of the search tree by its number, or a choice point of the current region,
/// of which `Local(i)` is the one above the i + 1 oldest entries.
#[derive(Clone, Copy, Debug, PartialEq, Eq)]
pub enum Scope {
    Node(u64),
    Local(u64),
}

/// The number of a clause of a dynamic procedure, which no other clause gets.
#[derive(Clone, Copy, Debug, PartialEq, Eq, PartialOrd, Ord)]
pub struct ClauseId(pub u64);

/// An item of what is left to do.
#[derive(Drop)]
pub enum Item {
    /// A goal, and the choice point to which a cut in it cuts.
    Goal { term: Shared, cut: Scope },
    /// The end of what a catch guards.
    CatchEnd(Scope),
    /// A solution of a findall goal: what is collected, and for which findall.
    Collect { template: Shared, scope: Scope },
    /// The removal of a clause.
    Remove(ClauseId),
    /// The end of a query, with its uncaught ball if there is one. It is alone.
    End(Option<FlatTerm>),
}
