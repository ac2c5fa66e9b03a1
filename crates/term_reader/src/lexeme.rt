//! Tokens as a reader of terms sees them.
ghost use Rattle.std.specs.Prelude.{◌≡◌, ◌≤◌, ◌^◌, ℕ, suc, true, false, List, [], ◌∷◌, IfOk, IfSome, IfNone, option_map, IsCharBoundary};
ghost use Rattle.std.specs.Str.{chars};
ghost use Rattle.au_model.specs.Syntax.Characters.{chars_from};
ghost use Rattle.au_model.specs.Syntax.Tokens.{lexeme_of, mark_lexeme, scanned};
ghost use Rattle.au_model.specs.Syntax.Primaries.{is_minus_name};
ghost use Rattle.au_model.specs.Syntax.Words.{word_characters};
ghost use Rattle.token_scan.specs.NextToken.{is_quoted_kind, word_of, IsNextToken, IsToken};
ghost use Rattle.token_scan.specs.ScannedParts.{IsPlaceFrom};
ghost use Rattle.term_reader.specs.FollowingToken.{closer_of};
ghost use Rattle.term_reader.specs.LexemeView.{lexeme_meant, scan_meant, IsNarrow, IsScan};

use au_term::{Atom, NoMemory, is_text};
use std::alloc::Global;
use token_scan::{BadToken, Token, TokenKind, integer, next_token, spelling, value};

/// What a token is, with its characters, escapes undone.
#[derive(Drop)]
pub(crate) enum Lexeme {
    Name(Atom),
    QuotedName(Atom),
    Variable(Atom),
    Integer(u64),
    Text(Atom),
    Open,
    Close,
    OpenList,
    CloseList,
    OpenCurly,
    CloseCurly,
    Comma,
    Bar,
    End,
}

/// A token with its place.
#[derive(Drop)]
pub(crate) struct Placed {
    pub(crate) lexeme: Lexeme,
    pub(crate) apart: bool,
    pub(crate) start: usize,
    pub(crate) end: usize,
}

/// What is at a place of a text, after layout.
#[derive(Drop)]
pub(crate) enum Scan {
    Found(Placed),
    Bad(BadToken),
    EndOfText,
}

/// `( ) [ ] { } ,` or the bar.
pub(crate) fn mark(text: &str) -> Lexeme
    ensures mark { (c : ℕ) → chars text.now ≡ c ∷ [] → lexeme_meant result ≡ mark_lexeme c }
    ensures narrow { IsNarrow result }
{
    match text.chars().next() {
        Some('(') => Lexeme::Open,
        Some(')') => Lexeme::Close,
        Some('[') => Lexeme::OpenList,
        Some(']') => Lexeme::CloseList,
        Some('{') => Lexeme::OpenCurly,
        Some('}') => Lexeme::CloseCurly,
        Some(',') => Lexeme::Comma,
        _ => Lexeme::Bar,
    }
}

/// The characters of a quoted token.
pub(crate) fn quoted(alloc: Global, text: &str, token: &Token) -> Result<Atom, NoMemory>
    requires token { IsToken text.now token.now }
    requires quoted { is_quoted_kind token.now.kind ≡ true }
    ensures { IfOk result (λ a. a ≡ word_characters (word_of text.now token.now)) }
{
    Atom::new(alloc, value(alloc, text, token)?.as_str())
}

/// What a token is, unless it is the end of the text.
fn token_lexeme(alloc: Global, text: &str, token: &Token) -> Result<Option<Lexeme>, NoMemory>
    requires { IsToken text.now token.now }
    ensures lexeme { IfOk result (λ x. option_map lexeme_meant x ≡ lexeme_of (word_of text.now token.now)) }
    ensures narrow { IfOk result (λ x. IfSome x (λ l. IsNarrow l)) }
{
    match token.kind {
        TokenKind::Name => Ok(Some(Lexeme::Name(Atom::new(alloc, spelling(text, token))?))),
        TokenKind::QuotedName => Ok(Some(Lexeme::QuotedName(quoted(alloc, text, token)?))),
        TokenKind::Variable => Ok(Some(Lexeme::Variable(Atom::new(alloc, spelling(text, token))?))),
        TokenKind::Integer => Ok(Some(Lexeme::Integer(integer(text, token)))),
        TokenKind::DoubleQuoted => Ok(Some(Lexeme::Text(quoted(alloc, text, token)?))),
        TokenKind::Punctuation => Ok(Some(mark(spelling(text, token)))),
        TokenKind::End => Ok(Some(Lexeme::End)),
        TokenKind::EndOfText => Ok(None),
    }
}

/// What the next token is, with its place.
fn found_at(alloc: Global, text: &str, at: usize, token: Token) -> Result<Scan, NoMemory>
    requires { IsNextToken text.now at token }
    ensures scan { IfOk result (λ s. scan_meant text.now s ≡ scanned (chars_from text.now at)) }
    ensures place { IfOk result (λ s. IsScan text.now at s) }
{
    let lexeme = token_lexeme(alloc, text, &token)?;
    match lexeme {
        Some(lexeme) => Ok(Scan::Found(Placed {
            lexeme,
            apart: token.layout_before,
            start: token.start,
            end: token.end,
        })),
        None => Ok(Scan::EndOfText),
    }
}

/// What is at a place.
pub(crate) fn scan_at(alloc: Global, text: &str, at: usize) -> Result<Scan, NoMemory>
    requires { IsCharBoundary text.now at }
    ensures scan { IfOk result (λ s. scan_meant text.now s ≡ scanned (chars_from text.now at)) }
    ensures place { IfOk result (λ s. IsScan text.now at s) }
{
    match next_token(text, at) {
        Ok(token) => found_at(alloc, text, at, token),
        Err(bad) => Ok(Scan::Bad(bad)),
    }
}

/// Whether a name is `-`.
pub(crate) fn is_minus(name: &str) -> bool
    ensures { result ≡ is_minus_name (chars name.now) }
{
    is_text(name, "-")
}

/// A token that may end an operand.
#[derive(Clone, Copy)]
pub(crate) enum Closer {
    Close,
    CloseList,
    CloseCurly,
    Comma,
    Bar,
    End,
    Other,
}

/// What a token is where an operand ends.
pub(crate) fn closer_token(lexeme: &Lexeme) -> Closer
    ensures { result ≡ closer_of (lexeme_meant lexeme.now) }
{
    match lexeme {
        Lexeme::Close => Closer::Close,
        Lexeme::CloseList => Closer::CloseList,
        Lexeme::CloseCurly => Closer::CloseCurly,
        Lexeme::Comma => Closer::Comma,
        Lexeme::Bar => Closer::Bar,
        Lexeme::End => Closer::End,
        _ => Closer::Other,
    }
}
