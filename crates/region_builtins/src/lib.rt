//! Built-in predicates in a region. Unification, tests, comparisons, arithmetic, arguments by their numbers, and the names of
//! terms and how many arguments they have look at terms where they are, and for terms of usual size take no memory, but for the
//! symbol of an order that `compare/3` gives a variable; all others have their arguments resolved.
#![tactic(auto)]

mod goal;
mod quick;
mod solved;

pub use goal::builtin_goal;
