//! The values of expressions.
#![tactic(auto)]

pub mod evaluation;
pub mod functions;
mod integers;

pub use evaluation::{EvalRefusal, Problem, binary_result, eval, not_evaluable, unary_result};
pub use functions::{Binary, Unary, binary_named, unary_named};
