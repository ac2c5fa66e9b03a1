//! Drives a job on the shared tree to its end, by one worker: it takes the next alternative, serves it, and puts out what was
//! written meanwhile. Whatever the tree did on the way, what comes of it is the sequential run of the job.
//!
//! To serve an alternative that is out to a worker is to load and run its task, and to note what it has come to in the tree, by one
//! event or, at an answer with nothing else left to try, by three. So whatever is handed out comes back, to wait or for good, and the
//! world stays that of the tree.
#![tactic(auto)]

mod demand;
mod driving;
mod ending;
mod falling;
mod first;
mod front;
mod job_run;
mod later;
pub mod laws;
mod names;
mod opening;
mod pieces;
mod run_ending;
mod running;
mod serving;
mod taking;
mod turns;
mod world;

pub use demand::{Demand, NoDemand};
pub use driving::drive;
pub use job_run::JobRun;
pub use opening::open;
pub use serving::serve;
