//! The store of a branch, as cells: what each variable is bound to, the terms that were made, and marks to which all of it
//! can be taken back (D. H. D. Warren, "The SRI model for or-parallel execution of Prolog", 1987). A value is an integer, an
//! atom by its number, a variable, or a compound by its place in the text and the number that is added to its variables;
//! nothing is copied where a variable is bound, and nothing is counted.
//!
//! Reading a place, binding and marking take constant time, and so does taking new numbers, for each of them. Dereferencing
//! takes as many steps as its chain has links. Undoing takes as many as variables older than the mark were bound since: a
//! younger one is not put on the trail, since its cell is cut off. Dropping marks undoes nothing. Listing what was
//! bound since a mark takes as many steps as that, and as many as there are younger variables, with the logarithm of both.
//!
//! Unification takes as many steps as it comes to equations. The arguments that are left behind one compound wait by
//! themselves; only where more wait are they put into a list, whose room is kept. A compound is not gone into beside
//! itself, at the same place with the same number added; one that is written without variables is the same value
//! whatever the number. A variable that is bound to a compound is searched in all that this stands for, as long as it
//! is written out, but for arguments that are written without variables; a head's own variables are not searched, until
//! an older variable is bound to a compound.
//!
//! Resolving a value takes as many steps as the term has cells, and copying a term in as many as it has, with the logarithm
//! of the number of names for each name.
#![tactic(auto)]

pub mod arguments;
mod heap;
mod heap_places;
mod made;
mod mark;
mod occurs;
mod resolved;
mod solve;
mod store;
mod unify;
mod unifying;

pub use occurs::{push_arguments, push_rest};
pub use store::Store;
