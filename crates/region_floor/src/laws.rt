//! Laws of the definitions: each function does nothing, and its contract is the law.

pub mod runs;
pub mod steps;
