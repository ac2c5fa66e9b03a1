//! Calls (ISO/IEC 13211-1, 7.8.3, and 8.15.4 of its second corrigendum) in a region. A goal that is its own body is called
//! where it is, and nothing is copied. With further arguments a compound is made: of each argument what stands in the text is
//! copied, and not what its variables are bound to. Where a variable stands below a conjunction, a disjunction or a condition,
//! a body is made, of what the goal stands for.
#![tactic(auto)]

mod bodies;
mod call;
mod called;

pub use call::{call_arguments, call_goal};
