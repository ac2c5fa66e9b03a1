//! The next token.
ghost use Rattle.std.specs.Prelude.{◌≡◌, IfOk, IfErr, Some, IsCharBoundary};
ghost use Rattle.au_model.specs.Syntax.Characters.{chars_from};
ghost use Rattle.au_model.specs.Syntax.Words.{ends_term, next_word, numeral_word, word_at_front};
ghost use Rattle.au_model.specs.Syntax.Numerals.{numeral};
ghost use Rattle.token_scan.specs.NextToken.{kind_found, IsTokenFault, IsNextToken};
ghost use Rattle.token_scan.specs.ScannedParts.{IsPlaceFrom};

use crate::cursor::{Class, peek, run_end, step};
use crate::layout::skip_layout;
use crate::numbers::{Number, numeral};
use crate::quotes::quoted_end;
use crate::token::{BadToken, Token, TokenKind};
use au_model::FaultKind;
use au_model::characters::{is_blank, is_capital, is_punctuation, is_small, is_solo, is_symbol};

/// Whether a point in front of this place ends a term.
fn ends_term(text: &str, at: usize) -> bool
    requires { IsCharBoundary text.now at }
    ensures { result ≡ ends_term (chars_from text.now at) }
{
    match peek(text, at) {
        None => true,
        Some(c) => is_blank(c) || c == '%',
    }
}

/// The numeral at a place, as a token.
fn integer_word(text: &str, at: usize) -> Result<usize, BadToken>
    requires { IsCharBoundary text.now at }
    ensures ok { IfOk result (λ end. kind_found (numeral_word (chars_from text.now at) (numeral (chars_from text.now at))) ≡ Some (TokenKind.Integer, chars_from text.now end)) }
    ensures place { IfOk result (λ end. IsPlaceFrom text.now at end) }
    ensures err { IfErr result (λ e. IsTokenFault (numeral_word (chars_from text.now at) (numeral (chars_from text.now at))) text.now at e) }
{
    let (place, kind) = match numeral(text, at) {
        Number::Fits(_, end) => return Ok(end),
        Number::Float => (at, FaultKind::FloatNumeral),
        Number::Wide => (at, FaultKind::WideNumeral),
        Number::NoCharacter(place) => (place, FaultKind::BadEscape),
    };
    Err(BadToken { at: place, kind })
}

/// The kind of the word at a place that begins no layout, and where it ends.
fn word(text: &str, at: usize) -> Result<(TokenKind, usize), BadToken>
    requires { IsCharBoundary text.now at }
    ensures ok { IfOk result (λ r. kind_found (word_at_front (chars_from text.now at)) ≡ Some (r.0, chars_from text.now r.1)) }
    ensures place { IfOk result (λ r. IsPlaceFrom text.now at r.1) }
    ensures err { IfErr result (λ e. IsTokenFault (word_at_front (chars_from text.now at)) text.now at e) }
{
    let Some(c) = peek(text, at) else {
        return Ok((TokenKind::EndOfText, at));
    };
    let after = step(text, at, c);
    if is_small(c) {
        Ok((TokenKind::Name, run_end(text, after, Class::Alphanumeric)))
    } else if is_capital(c) || c == '_' {
        Ok((
            TokenKind::Variable,
            run_end(text, after, Class::Alphanumeric),
        ))
    } else if c.is_digit(10) {
        Ok((TokenKind::Integer, integer_word(text, at)?))
    } else if c == '\'' {
        Ok((TokenKind::QuotedName, quoted_end(text, at, after, c)?))
    } else if c == '"' {
        Ok((TokenKind::DoubleQuoted, quoted_end(text, at, after, c)?))
    } else if is_solo(c) {
        Ok((TokenKind::Name, after))
    } else if is_punctuation(c) {
        Ok((TokenKind::Punctuation, after))
    } else if c == '.' && ends_term(text, after) {
        Ok((TokenKind::End, after))
    } else if is_symbol(c) {
        Ok((TokenKind::Name, run_end(text, after, Class::Symbol)))
    } else {
        Err(BadToken {
            at,
            kind: FaultKind::BadCharacter,
        })
    }
}

/// The first token from a place on, or its fault. Takes no memory.
pub fn next_token(text: &str, at: usize) -> Result<Token, BadToken>
    requires { IsCharBoundary text.now at }
    ensures token { IfOk result (λ t. IsNextToken text.now at t) }
    ensures fault { IfErr result (λ e. IsTokenFault (next_word (chars_from text.now at)) text.now at e) }
{
    match skip_layout(text, at) {
        Ok(start) => {
            let (kind, end) = word(text, start)?;
            Ok(Token {
                kind,
                start,
                end,
                layout_before: at < start,
            })
        }
        Err(place) => Err(BadToken {
            at: place,
            kind: FaultKind::UnclosedComment,
        }),
    }
}
