//! The sequential machine: a region runs to the next goal of the world, answer or end, and the run goes on from there, query
//! after query. What is written is put out in pieces.
#![tactic(auto)]

mod answering;
mod ending;
mod machine;
mod query;
mod run;
mod step;
mod waiting;
mod world;

pub use run::run_job;
