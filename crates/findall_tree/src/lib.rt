//! The solutions of a findall in the shared tree.
//!
//! `bag_of` copies the records of a goal side that has closed, in the order of its branches. It costs these copies, whatever
//! else is in the tree.
#![tactic(auto)]

pub mod bag;

pub use bag::bag_of;
