//! What goals are, by their names and numbers of arguments: control constructs, built-in predicates, goals of the world, or
//! calls of procedures. For the names of a program's text that is known before it runs, by their numbers: a look-up reads
//! the kind that its name has with one number of arguments, or searches a map for others, and compares no characters.
#![tactic(auto)]

mod kind;
mod kinds;

pub use kind::{GoalKind, kind_of_name};
pub use kinds::GoalKinds;
