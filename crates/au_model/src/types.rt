//! The plain types that texts, terms and their writing share.

use au_term::VarNo;

/// A variable that a text names: its name and its number.
#[derive(Debug, Drop)]
pub struct VarName {
    pub text: String,
    pub number: VarNo,
}

/// The values of the flag `double_quotes`: a list of codes, a list of one-character atoms, or an atom.
#[derive(Clone, Copy, Debug, PartialEq, Eq)]
pub enum DoubleQuotes {
    Codes,
    Chars,
    Atom,
}

/// How a term is written (ISO/IEC 13211-1, 7.10.5): as it is, with quotes where they are needed to read it again, or
/// with quotes and in functional notation.
#[derive(Clone, Copy, Debug, PartialEq, Eq)]
pub enum Style {
    Plain,
    Quoted,
    Canonical,
}

/// The kind of a text's first fault (ISO/IEC 13211-1, clauses 6.3 and 6.4, narrowed to Aurora's language).
#[derive(Clone, Copy, Debug, PartialEq, Eq)]
pub enum FaultKind {
    NotUtf8,
    BadCharacter,
    BadEscape,
    UnclosedQuote,
    UnclosedComment,
    FloatNumeral,
    WideNumeral,
    TooManyArguments,
    UnexpectedToken,
    UnexpectedEnd,
    BadClause,
    BadDirective,
    StaticTwice,
    Unbuilt,
}
