//! Operators by name (ISO/IEC 13211-1, 6.3.4): for each name at most one prefix, one infix and one postfix operator.
//!
//! A table is a map from names to their operators; contracts see its rows, by name and then prefix, infix, postfix. A
//! look-up takes no memory and logarithmic time. `put` and `add`, the effect of op/3, take logarithmic time for each
//! name; `add` tests all names, and makes the places that they need, before it changes the first. `rows` and `copy` are
//! linear.
#![tactic(auto)]

mod change;
mod names;
mod operator;
mod refusal;
mod table;

pub use operator::{ARGUMENT_PRIORITY, MAX_PRIORITY, OpKind, OpRow, Operator};
pub use refusal::OpRefusal;
pub use table::Ops;
