//! What every text finds before its own first line: the library, whose text is loaded before the program's.
#![tactic(auto)]

pub mod laws;
pub mod text;

pub use text::library;
