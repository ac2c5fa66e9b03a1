//! The tokens of a Prolog text.
#![tactic(auto)]

mod cursor;
pub mod laws;
mod layout;
mod numbers;
mod quotes;
mod scan;
mod token;
mod values;

pub use scan::next_token;
pub use token::{BadToken, Token, TokenKind};
pub use values::{integer, spelling, value};
