//! Reading terms.
#![tactic(auto)]

pub mod laws;
mod lexeme;
mod lookahead;
mod order;
mod output;
mod place;
mod post_operator;
mod primary;
mod read;
mod refusal;
mod state;
mod steps;
mod variables;

pub use place::line_and_column;
pub use read::{ReadOutcome, ReadRefused, read_term};
