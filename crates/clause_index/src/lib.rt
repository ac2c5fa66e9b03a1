//! The clauses of a program's text, found by the procedure of a goal and the key of its first argument. Names are numbers
//! here, so that no characters are compared while a program runs.
//!
//! Each clause knows the next one of its procedure, and the next one whose head has the same first key. The first clause of
//! a procedure, the first one without a key and those with its first two keys are read at the number of its name, or are
//! searched in a map where another procedure of that name stands there. Those with any other key are searched only where the
//! procedure has more than these two. Taking a clause off is one step, and what is left to try is two numbers.
#![tactic(auto)]

mod cursor;
mod heads;
mod index;
mod key;
pub mod laws;

pub use cursor::Cursor;
pub use index::ClauseIndex;
pub use key::{Class, HeadKey, NumberKey};
