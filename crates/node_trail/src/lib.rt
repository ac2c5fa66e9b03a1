//! The way from one alternative of the shared tree to another: the segments that are left, up to the nearest node or
//! alternative that both have above them, and those that are entered, down from there.
//!
//! `path_between` costs the nodes on the way, and shares their bodies. Short ways take no memory.
#![tactic(auto)]

pub mod legs;
pub mod path;

pub use legs::{Leg, Legs};
pub use path::{Path, path_between};
