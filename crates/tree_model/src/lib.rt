//! The search tree that workers share: its nodes, its events, and when each event is legal. Definitions alone; the types
//! here are what code and its contracts name alternatives and events by.
#![tactic(auto)]

pub mod events;
pub mod places;
pub mod storied;

pub use events::{Event, Sizes};
pub use places::AltRef;
pub use storied::Storied;
