//! The standard order of terms.
#![tactic(auto)]

mod cells;
pub mod comparison;
pub mod laws;
pub mod sorting;

pub use comparison::compare;
pub use sorting::{key_sort, sort_unique};
