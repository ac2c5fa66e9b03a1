//! Terms.
#![tactic(auto)]

pub mod arguments;
pub mod atom;
pub mod builder;
pub mod cell;
pub mod flat;
pub mod segment;
pub mod shared;
mod sizes;
pub mod steps;

pub use arguments::Arguments;
pub use atom::{Atom, is_text};
pub use builder::TermBuilder;
pub use cell::{Cell, MAX_ARITY, VarNo};
pub use flat::FlatTerm;
pub use segment::{Binding, Bindings, Segment};
pub use shared::Shared;
use std::alloc::{AllocError, AllocFailed};
pub use steps::Steps;

/// Out of memory.
#[derive(Clone, Copy, Debug, PartialEq, Eq)]
pub struct NoMemory;

impl From<AllocError> for NoMemory {
    fn from(_error: AllocError) -> NoMemory {
        NoMemory
    }
}

impl<T: Drop> From<AllocFailed<T>> for NoMemory {
    fn from(_error: AllocFailed<T>) -> NoMemory {
        NoMemory
    }
}
