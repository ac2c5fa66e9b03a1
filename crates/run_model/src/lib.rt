//! What programs, goals and runs mean: the definitions that the contracts of the engine cite, and how runs end.
#![tactic(auto)]

pub mod ending;
pub mod laws;

pub use ending::{Ending, RunEnd, RunEnding, UsageKind, code};
