//! Tasks that have come to an answer with nothing else left to try: the run of such a task becomes public, and its answer is taken,
//! by three events at once. So nothing of what it has left is written: neither terms nor bindings.
//!
//! A catch whose goal has ended stays a choice point (ISO/IEC 13211-1, 7.8.9), and its recovery sleeps: such catches are nothing
//! else to try.
#![tactic(auto)]

mod answering;
pub mod laws;

pub use answering::answer_task;
