//! The classes of characters (ISO/IEC 13211-1, 6.5).
ghost use Rattle.std.specs.Prelude.{◌≡◌, ◌&&◌, nat_le};
ghost use Rattle.au_model.specs.Syntax.Characters.{is_alphanumeric, is_blank, is_capital, is_decimal_category, is_punctuation, is_small, is_solo, is_symbol};
ghost use Rattle.unicode.specs.GeneralCategory.{general_category};

use unicode::properties::{GeneralCategory, is_alphabetic};

/// A to Z, or another character of category Lu or Lt.
pub fn is_capital(c: char) -> bool
    ensures { result ≡ is_capital c }
{
    if c.is_ascii() {
        return c.is_ascii_uppercase();
    }
    matches!(
        GeneralCategory::for_char(c),
        GeneralCategory::UppercaseLetter | GeneralCategory::TitlecaseLetter
    )
}

/// a to z, or another alphabetic character past ASCII that is no capital.
pub fn is_small(c: char) -> bool
    ensures { result ≡ is_small c }
{
    if c.is_ascii() {
        return c.is_ascii_lowercase();
    }
    is_alphabetic(c) && !is_capital(c)
}

/// A letter, `_`, 0 to 9, or another character of category Nd.
pub fn is_alphanumeric(c: char) -> bool
    ensures { result ≡ is_alphanumeric c }
{
    is_capital(c) || is_small(c) || c == '_' || c.is_ascii_digit() || is_decimal(c)
}

fn is_decimal(c: char) -> bool
    ensures { result ≡ (nat_le 128 c && is_decimal_category (general_category c)) }
{
    !c.is_ascii() && GeneralCategory::for_char(c) == GeneralCategory::DecimalNumber
}

/// Codes 9 to 13 and 32.
pub fn is_blank(c: char) -> bool
    ensures { result ≡ is_blank c }
{
    ('\t' <= c && c <= '\r') || c == ' '
}

/// One of ``+ - * / \ ^ < > = ~ : . ? @ # & $``.
pub fn is_symbol(c: char) -> bool
    ensures { result ≡ is_symbol c }
{
    matches!(
        c,
        '+' | '-'
            | '*'
            | '/'
            | '\\'
            | '^'
            | '<'
            | '>'
            | '='
            | '~'
            | ':'
            | '.'
            | '?'
            | '@'
            | '#'
            | '&'
            | '$'
    )
}

/// A name by itself: `!` or `;`.
pub fn is_solo(c: char) -> bool
    ensures { result ≡ is_solo c }
{
    c == '!' || c == ';'
}

/// A bracket, a comma or a bar.
pub fn is_punctuation(c: char) -> bool
    ensures { result ≡ is_punctuation c }
{
    matches!(c, '(' | ')' | '[' | ']' | '{' | '}' | ',' | '|')
}
