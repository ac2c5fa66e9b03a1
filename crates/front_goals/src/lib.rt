//! Goals of the world at the front of the shared tree (ISO/IEC 13211-1, 8.8 to 8.10, 8.12, 8.14 and 8.17): a task that has stopped before
//! any inference at a goal that looks at the world or changes it tells what is next there. What that asks for is applied to the world, once,
//! and the tree notes what comes of it: what follows the goal goes on, or the goal's solutions do as branches of one new node; nothing is
//! left; a ball falls; or the tree is halted.
//!
//! A goal costs what its effect does, the trial of each solution that is found, and a branch for each that unifies; what follows the goal is
//! shared by the branches.
#![tactic(auto)]

mod answers;
mod balls;
mod branches;
mod front;
mod goals;
mod solutions;
mod solving;
mod trial;

pub use front::take_world_goal;
