//! The static procedures, found by name and number of arguments.
#![tactic(auto)]

mod key;
pub mod laws;
mod places;
mod procedure;
mod procs;
mod taken;

pub use key::{Key, cells_tell_apart};
pub use procs::{Candidates, Procs};
pub use taken::Taken;
