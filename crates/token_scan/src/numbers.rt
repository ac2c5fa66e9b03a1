//! Numerals.
ghost use Rattle.std.specs.Prelude.{◌≡◌, ◌^◌, ◌≤◌, IfSome, option_map, drop, IsCharBoundary};
ghost use Rattle.au_model.specs.Syntax.Characters.{chars_from};
ghost use Rattle.au_model.specs.Syntax.Numerals.{character_numeral, decimal_numeral, digits_numeral, named_base, numeral, zero_numeral};
ghost use Rattle.token_scan.specs.ScannedParts.{numeral_of, IsNumberFrom, IsPlaceFrom};

use crate::cursor::{digits, is_digit_next, is_next, peek, step};
use crate::quotes::{Piece, escape};

/// What a numeral is, and where it ends.
#[derive(Clone, Copy)]
pub(crate) enum Number {
    Fits(u64, usize),
    Float,
    Wide,
    /// A backslash at this place begins no escape for a character.
    NoCharacter(usize),
}

/// The greatest number of a numeral.
const WIDEST: u64 = 1 << 63;

/// The numeral whose digits begin at a place.
fn digits_numeral(text: &str, at: usize, base: u32) -> Number
    requires boundary { IsCharBoundary text.now at }
    requires low { 2 ≤ base }
    requires high { base ≤ 36 }
    ensures numeral { digits_numeral base (chars_from text.now at) ≡ numeral_of text.now result }
    ensures place { IsNumberFrom text.now at result }
{
    let (number, end) = digits(text, at, base);
    if number > WIDEST {
        Number::Wide
    } else {
        Number::Fits(number, end)
    }
}

/// The decimal numeral at a place.
fn decimal_numeral(text: &str, at: usize) -> Number
    requires { IsCharBoundary text.now at }
    ensures numeral { decimal_numeral (chars_from text.now at) ≡ numeral_of text.now result }
    ensures place { IsNumberFrom text.now at result }
{
    let (number, end) = digits(text, at, 10);
    if is_next(text, end, '.') && is_digit_next(text, step(text, end, '.'), 10) {
        Number::Float
    } else if number > WIDEST {
        Number::Wide
    } else {
        Number::Fits(number, end)
    }
}

/// The base that a letter after a `0` names, and the place of its digits.
fn named_base(text: &str, at: usize) -> Option<(u32, usize)>
    requires { IsCharBoundary text.now at }
    ensures base { option_map (λ r. r.0) result ≡ named_base (chars_from text.now at) }
    ensures rest { IfSome result (λ r. chars_from text.now r.1 ≡ drop 1 (chars_from text.now at)) }
    ensures place { IfSome result (λ r. IsPlaceFrom text.now at r.1) }
    ensures low { IfSome result (λ r. 2 ≤ r.0) }
    ensures high { IfSome result (λ r. r.0 ≤ 36) }
{
    let letter = peek(text, at)?;
    let after = step(text, at, letter);
    let base = match letter {
        'x' => 16,
        'o' => 8,
        'b' => 2,
        _ => return None,
    };
    if is_digit_next(text, after, base) {
        Some((base, after))
    } else {
        None
    }
}

/// The character that is after `0'`.
fn character_numeral(text: &str, at: usize) -> Option<Number>
    requires { IsCharBoundary text.now at }
    ensures numeral { character_numeral (chars_from text.now at) ≡ option_map (numeral_of text.now) result }
    ensures place { IfSome result (λ n. IsNumberFrom text.now at n) }
{
    let c = peek(text, at)?;
    let after = step(text, at, c);
    if c == '\'' {
        if is_next(text, after, '\'') {
            Some(Number::Fits(u64::from(c), step(text, after, '\'')))
        } else {
            None
        }
    } else if c == '\\' {
        match escape(text, after) {
            Piece::Character(d, end) => Some(Number::Fits(u64::from(d), end)),
            _ => Some(Number::NoCharacter(at)),
        }
    } else {
        Some(Number::Fits(u64::from(c), after))
    }
}

/// What makes more of a `0` than the decimal number.
fn zero_numeral(text: &str, at: usize) -> Option<Number>
    requires { IsCharBoundary text.now at }
    ensures numeral { zero_numeral (chars_from text.now at) ≡ option_map (numeral_of text.now) result }
    ensures place { IfSome result (λ n. IsNumberFrom text.now at n) }
{
    if let Some((base, after)) = named_base(text, at) {
        Some(digits_numeral(text, after, base))
    } else if is_next(text, at, '\'') {
        character_numeral(text, step(text, at, '\''))
    } else {
        None
    }
}

/// The numeral at a place.
#[tactic(auto, unfolding(au_model::specs::Syntax::Numerals::numeral))]
pub(crate) fn numeral(text: &str, at: usize) -> Number
    requires { IsCharBoundary text.now at }
    ensures numeral { numeral (chars_from text.now at) ≡ numeral_of text.now result }
    ensures place { IsNumberFrom text.now at result }
{
    if is_next(text, at, '0') {
        if let Some(number) = zero_numeral(text, step(text, at, '0')) {
            return number;
        }
    }
    decimal_numeral(text, at)
}
