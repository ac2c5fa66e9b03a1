//! A region that runs: one inference after another, up to a goal that looks at the world, an answer, or the end of the
//! query. What goals are is told by the numbers of their names; calls, control, and goals of built-in predicates leave terms
//! where they are.
#![tactic(auto)]

mod compounds;
mod constructs;
mod inference;
mod kinds;
mod openings;
mod running;
mod throws;

pub use compounds::{Taken, take_compound};
pub use inference::infer;
pub use running::{Ran, Stop, run};
