//! Texts with what their runs write, by which each way to run a job is tested.
#![tactic(auto)]

pub mod control;
pub mod numbers;
pub mod predicates;
pub mod programs;
pub mod rows;
pub mod terms;
pub mod worlds;
