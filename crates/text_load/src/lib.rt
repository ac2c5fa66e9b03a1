//! Texts made into jobs.
#![tactic(auto)]

mod assembly;
mod directive;
pub mod job;
pub mod laws;
mod loading;
mod procedures;
pub mod query;
pub mod reading;
mod sentence;

pub use job::{Job, JobParts};
pub use query::Query;
pub use reading::{LoadRefusal, load};
