//! The built-in predicates that look at their arguments alone.
#![tactic(auto)]

mod agreement;
pub mod answer;
mod argument;
mod arithmetic;
mod asked;
mod atom_concat;
mod atoms;
mod call;
pub mod characters;
mod checks;
pub mod comparisons;
pub mod control;
mod functor;
mod integers;
mod numbers;
mod parts;
mod reserved;
mod sorting;
pub mod spelling;
mod sub_atom;
pub mod table;
pub mod type_tests;
mod unification;
pub mod world_goals;

pub use answer::{BuiltinRefusal, Solution};
pub use characters::character;
pub use comparisons::Comparison;
pub use control::{Control, control_of, is_control};
pub use reserved::is_reserved;
pub use spelling::Spelling;
pub use table::{Builtin, builtin_of, is_builtin};
pub use type_tests::TypeTest;
pub use world_goals::{WorldGoal, is_world_goal, world_goal_of};
