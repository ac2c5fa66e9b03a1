//! What tokens stand for.
ghost use Rattle.std.specs.Prelude.{◌≡◌, ◌≤◌, ◌^◌, true, IfOk, chars, string_bytes};
ghost use Rattle.au_model.specs.Syntax.Words.{word_characters, word_number};
ghost use Rattle.token_scan.specs.NextToken.{is_integer_kind, is_plain_kind, is_quoted_kind, word_of, IsToken};

use crate::cursor::{peek, step};
use crate::numbers::{Number, numeral};
use crate::quotes::characters;
use crate::token::Token;
use au_term::NoMemory;
use std::alloc::Global;

/// The characters of a name, a variable or a mark, as they are in the text.
pub fn spelling<'a>(text: &'a str, token: &Token) -> &'a str
    requires token { IsToken text.now token.now }
    requires plain { is_plain_kind token.now.kind ≡ true }
    ensures { chars result.now ≡ word_characters (word_of text.entry.now token.now) }
{
    &text[token.start..token.end]
}

/// The characters of a quoted token, its escapes undone.
pub fn value(alloc: Global, text: &str, token: &Token) -> Result<String, NoMemory>
    requires token { IsToken text.now token.now }
    requires quoted { is_quoted_kind token.now.kind ≡ true }
    ensures { IfOk result (λ s. chars (string_bytes s) ≡ word_characters (word_of text.now token.now)) }
{
    let Some(quote) = peek(text, token.start) else {
        unreachable!();
    };
    characters(alloc, text, step(text, token.start, quote), quote)
}

/// The number of an integer token, at most 9223372036854775808.
pub fn integer(text: &str, token: &Token) -> u64
    requires token { IsToken text.now token.now }
    requires integer { is_integer_kind token.now.kind ≡ true }
    ensures number { result ≡ word_number (word_of text.now token.now) }
    ensures width { result ≤ 2 ^ 63 }
{
    let Number::Fits(number, _) = numeral(text, token.start) else {
        unreachable!();
    };
    number
}
