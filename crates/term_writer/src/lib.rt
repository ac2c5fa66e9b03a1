//! Terms as text (ISO/IEC 13211-1, 7.10.5).
#![tactic(auto)]

mod forms;
pub mod laws;
mod lines;
mod names;
mod tasks;
mod text;
mod write;

pub use lines::{answer_line, ball_line};
pub use write::write_into;
