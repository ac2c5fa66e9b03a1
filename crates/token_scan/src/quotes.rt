//! Quoted items and their escapes.
ghost use Rattle.std.specs.Prelude.{◌≡◌, ◌≤◌, false, true, [], ◌∷◌, ◌++◌, IfOk, OnOk, IfErr, IsSome, MatchOption, Some, slice_get, string_bytes, chars, IsCharBoundary};
ghost use lib.Utf8.{scalar};
ghost use Rattle.au_model.specs.Syntax.Characters.{chars_from};
ghost use Rattle.au_model.specs.Syntax.Quoted.{escape, named_escape, numbered_escape, part, quoted};
ghost use Rattle.au_model.specs.Syntax.Words.{quoted_word, QuotedWord};
ghost use Rattle.token_scan.specs.ScannedParts.{quoted_part_of, quoted_characters, quoted_rest, EndsAfter, IsPlaceFrom};
ghost use Rattle.token_scan.specs.NextToken.{IsTokenFault};

use crate::cursor::{digits, is_digit_next, is_next, peek, step};
use crate::token::BadToken;
use au_model::FaultKind;
use au_term::NoMemory;
use std::alloc::Global;

/// A part of a quoted item, and where it ends.
#[derive(Clone, Copy)]
pub(crate) enum Piece {
    /// It stands for a character.
    Character(char, usize),
    /// It stands for nothing.
    Skips(usize),
    /// It is the closing quote.
    Closes(usize),
    /// It is no escape.
    Wrong,
    /// The text or the line ends in it.
    Cut,
}

/// The character that a sign after a backslash stands for.
fn named_escape(c: char) -> Option<char>
    ensures { result ≡ named_escape c }
{
    match c {
        '\\' | '\'' | '"' | '`' => Some(c),
        'a' => Some('\u{7}'),
        'b' => Some('\u{8}'),
        'f' => Some('\u{c}'),
        'n' => Some('\n'),
        'r' => Some('\r'),
        't' => Some('\t'),
        'v' => Some('\u{b}'),
        _ => None,
    }
}

/// The character with this number.
fn character(number: u64) -> Option<char>
    ensures { MatchOption result (scalar number ≡ false) (λ c. (c ≡ number) × (scalar number ≡ true)) }
{
    u32::try_from(number).ok().and_then(char::from_u32)
}

/// The escape whose digits begin at a place.
fn numbered_escape(text: &str, at: usize, base: u32) -> Piece
    requires boundary { IsCharBoundary text.now at }
    requires low { 2 ≤ base }
    requires high { base ≤ 36 }
    ensures part { numbered_escape base (chars_from text.now at) ≡ quoted_part_of text.now result }
    ensures place { EndsAfter text.now at result }
{
    let has_digit = is_digit_next(text, at, base);
    let (number, end) = digits(text, at, base);
    match peek(text, end) {
        None | Some('\n') => Piece::Cut,
        Some('\\') if has_digit => match character(number) {
            Some(c) => Piece::Character(c, step(text, end, '\\')),
            None => Piece::Wrong,
        },
        Some(_) => Piece::Wrong,
    }
}

/// The escape after a backslash.
pub(crate) fn escape(text: &str, at: usize) -> Piece
    requires { IsCharBoundary text.now at }
    ensures part { escape (chars_from text.now at) ≡ quoted_part_of text.now result }
    ensures place { EndsAfter text.now at result }
{
    let Some(c) = peek(text, at) else {
        return Piece::Cut;
    };
    let after = step(text, at, c);
    match c {
        '\n' => Piece::Skips(after),
        'x' => numbered_escape(text, after, 16),
        _ if c.is_digit(8) => numbered_escape(text, at, 8),
        _ => match named_escape(c) {
            Some(d) => Piece::Character(d, after),
            None => Piece::Wrong,
        },
    }
}

/// The part at a place after the opening quote.
pub(crate) fn part(text: &str, at: usize, quote: char) -> Piece
    requires { IsCharBoundary text.now at }
    ensures part { part quote (chars_from text.now at) ≡ quoted_part_of text.now result }
    ensures place { EndsAfter text.now at result }
{
    let Some(c) = peek(text, at) else {
        return Piece::Cut;
    };
    let after = step(text, at, c);
    if c == quote {
        if is_next(text, after, quote) {
            Piece::Character(quote, step(text, after, quote))
        } else {
            Piece::Closes(after)
        }
    } else if c == '\\' {
        escape(text, after)
    } else if c == '\n' {
        Piece::Cut
    } else {
        Piece::Character(c, after)
    }
}

/// Where the quoted item ends whose opening quote is at one place, and whose first part at the next.
pub(crate) fn quoted_end(
    text: &str,
    quote_at: usize,
    at: usize,
    quote: char,
) -> Result<usize, BadToken>
    requires first { IsCharBoundary text.now quote_at }
    requires boundary { IsPlaceFrom text.now quote_at at }
    ensures ok { IfOk result (λ end. quoted_rest (quoted quote (chars_from text.now at)) ≡ Some (chars_from text.now end)) }
    ensures place { IfOk result (λ end. IsPlaceFrom text.now at end) }
    ensures err { IfErr result (λ e. IsTokenFault (quoted_word QuotedWord (chars_from text.now quote_at) (quoted quote (chars_from text.now at))) text.now quote_at e) }
{
    let mut here = at;
    'parts: loop {
        match part(text, here, quote) {
            Piece::Character(_, end) | Piece::Skips(end) => here = end,
            Piece::Closes(end) => return Ok(end),
            Piece::Wrong => {
                return Err(BadToken {
                    at: here,
                    kind: FaultKind::BadEscape,
                });
            }
            Piece::Cut => {
                return Err(BadToken {
                    at: quote_at,
                    kind: FaultKind::UnclosedQuote,
                });
            }
        }
    }
}

/// Puts a character after a text.
fn put(text: &mut String, c: char) -> Result<(), NoMemory>
    ensures { OnOk result (chars (string_bytes text.new) ≡ chars (string_bytes text.old) ++ c ∷ []) }
{
    text.push(c)?;
    Ok(())
}

/// The characters of the quoted item whose first part is at a place.
pub(crate) fn characters(
    alloc: Global,
    text: &str,
    at: usize,
    quote: char,
) -> Result<String, NoMemory>
    requires boundary { IsCharBoundary text.now at }
    requires closed { IsSome (quoted_rest (quoted quote (chars_from text.now at))) }
    ensures { IfOk result (λ s. chars (string_bytes s) ≡ quoted_characters (quoted quote (chars_from text.now at))) }
{
    let mut value = String::new(alloc);
    let mut here = at;
    'parts: loop {
        match part(text, here, quote) {
            Piece::Character(c, end) => {
                put(&mut value, c)?;
                here = end;
            }
            Piece::Skips(end) => here = end,
            Piece::Closes(_) => return Ok(value),
            Piece::Wrong | Piece::Cut => unreachable!(),
        }
    }
}
