//! Effects of goals on the world (ISO/IEC 13211-1, 8.8.1, 8.9, 8.12.3, 8.14.2 to 8.14.4, and 8.17.3): what is written,
//! the dynamic procedures, and the operators.
#![tactic(auto)]

mod assertion;
mod balls;
pub mod heads;
mod indicators;
mod lookup;
mod operators;
mod output;
mod refusal;
mod statics;
mod status;
pub mod world;

pub use balls::ball;
pub use heads::{body_of, head_of};
pub use world::{Applied, World};
