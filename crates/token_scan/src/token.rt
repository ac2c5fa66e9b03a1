//! Tokens and their faults.

use au_model::FaultKind;

/// The kinds of tokens.
#[derive(Clone, Copy, Debug, PartialEq, Eq)]
pub enum TokenKind {
    Name,
    QuotedName,
    Variable,
    Integer,
    DoubleQuoted,
    Punctuation,
    End,
    EndOfText,
}

/// A token by its places in the text, counted in bytes.
#[derive(Clone, Copy, Debug, PartialEq, Eq)]
pub struct Token {
    pub kind: TokenKind,
    pub start: usize,
    /// The place after its last character.
    pub end: usize,
    pub layout_before: bool,
}

/// What is wrong with a token, and where.
#[derive(Clone, Copy, Debug, PartialEq, Eq)]
pub struct BadToken {
    pub at: usize,
    pub kind: FaultKind,
}
