//! Clauses as they are kept, lists of goals, and what a goal can open or ask for.
#![tactic(auto)]

mod atom_numbers;
pub mod body;
pub mod clause;
mod code;
pub mod event;
pub mod goal_list;
pub mod item;
pub mod names;
mod place;

pub use atom_numbers::AtomNumbers;
pub use body::goal_places;
pub use clause::{Clause, ClauseRefusal, Part, body_goals, compile};
pub use code::{ClausePlaces, Code, compound_place, push_block};
pub use event::{Branch, Effect, GateKind, Opening};
pub use goal_list::{GoalItems, Goals};
pub use item::{ClauseId, Item, Scope};
pub use place::Place;
