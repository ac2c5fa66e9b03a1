//! Steps over the characters of a text.
ghost use Rattle.std.specs.Prelude.{◌≡◌, ◌+◌, ◌-◌, ◌^◌, ◌≤◌, ◌∷◌, Some, min, slice_get, IsCharBoundary};
ghost use Rattle.std.specs.Char.{len_utf8};
ghost use Rattle.std.specs.Str.Parse.{digits_value};
ghost use Rattle.au_model.specs.Syntax.Characters.{after_run, chars_from, first_is, first_passes, is_digit_of, run};
ghost use Rattle.token_scan.specs.ScannedParts.{passes, IsPlaceFrom};

use au_model::characters::{is_alphanumeric, is_symbol};

/// The characters that a run is made of.
#[derive(Clone, Copy)]
pub(crate) enum Class {
    Alphanumeric,
    Symbol,
    /// All but a line feed.
    Line,
}

fn passes(class: Class, c: char) -> bool
    ensures { result ≡ passes class c }
{
    match class {
        Class::Alphanumeric => is_alphanumeric(c),
        Class::Symbol => is_symbol(c),
        Class::Line => c != '\n',
    }
}

/// The character at a place.
pub(crate) fn peek(text: &str, at: usize) -> Option<char>
    requires { IsCharBoundary text.now at }
    ensures { result ≡ slice_get (chars_from text.now at) 0 }
{
    text[at..].chars().next()
}

/// The place after the character at a place.
pub(crate) fn step(text: &str, at: usize, c: char) -> usize
    requires boundary { IsCharBoundary text.now at }
    requires there { slice_get (chars_from text.now at) 0 ≡ Some c }
    ensures place { result ≡ at + len_utf8 c }
    ensures boundary { IsCharBoundary text.now result }
    ensures rest { chars_from text.now at ≡ c ∷ chars_from text.now result }
{
    at + c.len_utf8()
}

/// Whether this character is at a place.
pub(crate) fn is_next(text: &str, at: usize, c: char) -> bool
    requires { IsCharBoundary text.now at }
    ensures { result ≡ first_is c (chars_from text.now at) }
{
    match peek(text, at) {
        None => false,
        Some(d) => d == c,
    }
}

/// Where a run of a class ends.
pub(crate) fn run_end(text: &str, at: usize, class: Class) -> usize
    requires { IsCharBoundary text.now at }
    ensures place { IsPlaceFrom text.now at result }
    ensures rest { chars_from text.now result ≡ after_run (passes class) (chars_from text.now at) }
{
    let mut end = at;
    while let Some(c) = peek(text, end) {
        if !passes(class, c) {
            return end;
        }
        end = step(text, end, c);
    }
    end
}

/// The number of a run of digits, the greatest u64 where it is wider, and where the run ends.
pub(crate) fn digits(text: &str, at: usize, base: u32) -> (u64, usize)
    requires boundary { IsCharBoundary text.now at }
    requires low { 2 ≤ base }
    requires high { base ≤ 36 }
    ensures place { IsPlaceFrom text.now at result.1 }
    ensures rest { chars_from text.now result.1 ≡ after_run (is_digit_of base) (chars_from text.now at) }
    ensures number { result.0 ≡ min (digits_value base (run (is_digit_of base) (chars_from text.now at))) (2 ^ 64 - 1) }
{
    let mut number: u64 = 0;
    let mut end = at;
    while let Some(c) = peek(text, end) {
        let Some(digit) = c.to_digit(base) else {
            return (number, end);
        };
        number = number
            .saturating_mul(u64::from(base))
            .saturating_add(u64::from(digit));
        end = step(text, end, c);
    }
    (number, end)
}

/// Whether a digit of a base is at a place.
pub(crate) fn is_digit_next(text: &str, at: usize, base: u32) -> bool
    requires boundary { IsCharBoundary text.now at }
    requires low { 2 ≤ base }
    requires high { base ≤ 36 }
    ensures { result ≡ first_passes (is_digit_of base) (chars_from text.now at) }
{
    match peek(text, at) {
        None => false,
        Some(c) => c.is_digit(base),
    }
}
