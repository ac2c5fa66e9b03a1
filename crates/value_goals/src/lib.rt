//! What goals ask of values, told where they are: nothing is copied.
//!
//! Type tests, functors and arguments take constant time, but for chains of variables. Comparison takes as many steps as it
//! looks at terms, and keeps the arguments that wait while others are gone into: none of flat terms and of lists. Evaluation
//! takes as many steps as the expression has parts, and keeps the functions that wait: none where all arguments are integers.
#![tactic(auto)]

pub mod arithmetic;
pub mod comparison;
pub mod evaluation;
pub mod ground;
pub mod parts;
pub mod short;
pub mod type_tests;

pub use arithmetic::{compared_values, is_value};
pub use comparison::{are_identical, compare};
pub use evaluation::evaluate;
pub use ground::is_ground;
pub use parts::{argument, functor};
pub use short::short_value;
