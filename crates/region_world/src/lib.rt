//! Goals that look at the world or change it, in a region (ISO/IEC 13211-1, 8.8.1, 8.9, 8.12.3, 8.14 and 8.17.3): what they
//! ask for is applied to the world, and what it comes to takes the place of the goal. The arguments of a goal are copied for
//! the world; what is unified with clauses and operators stays where it is.
#![tactic(auto)]

mod asking;
mod effect;
mod found;
mod goal;
mod removal;
mod rows;

pub use asking::{WorldAnswer, ask_world};
pub use goal::{WorldReply, world_goal};
pub use removal::removes_clause;
