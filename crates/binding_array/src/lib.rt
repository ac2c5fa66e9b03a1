//! What variables are bound to, by their numbers: a cell of 16 bytes for each, copied and never counted. A cell has the
//! place of a compound in the program's text and what is to be added to its variables, so nothing is copied where a
//! variable is bound. Reading, binding and freeing take constant time; following a chain of variables takes as many steps
//! as it has links, and ends since each leads to a smaller number.
#![tactic(auto)]

mod array;
mod cell;
pub mod laws;

pub use array::BindingArray;
pub use cell::BindingCell;
