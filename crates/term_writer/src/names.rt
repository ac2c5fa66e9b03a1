//! Names as they are written: bare, or between quotes.
ghost use Rattle.std.specs.Prelude.{◌≡◌, codes};
ghost use Rattle.std.specs.Str.{chars};
ghost use Rattle.std.specs.List.{list_all};
ghost use Rattle.au_model.specs.Syntax.Characters.{is_symbol, is_small, is_alphanumeric, first_passes};
ghost use Rattle.au_model.specs.Writing.NameForms.{is_symbol_name, is_letter_name, is_solo_name, begins_comment};
ghost use Rattle.au_model.specs.Terms.Forms.{nil_name, braces_name};
ghost use Rattle.au_model.specs.Terms.Forms.{same_name};

use au_model::characters::{is_alphanumeric, is_small, is_symbol};
use au_term::is_text;

/// Whether all characters of a name are symbol characters.
fn is_all_symbols(name: &str) -> bool
    ensures { result ≡ list_all is_symbol (chars name.now) }
{
    name.chars().all(is_symbol)
}

/// Whether all characters of a name are letters, digits or `_`.
fn is_all_alphanumeric(name: &str) -> bool
    ensures { result ≡ list_all is_alphanumeric (chars name.now) }
{
    name.chars().all(is_alphanumeric)
}

/// Whether a name begins with a symbol character.
fn begins_symbolic(name: &str) -> bool
    ensures { result ≡ first_passes is_symbol (chars name.now) }
{
    match name.chars().next() {
        Some(c) => is_symbol(c),
        None => false,
    }
}

/// Whether a name begins with a small letter.
fn begins_small(name: &str) -> bool
    ensures { result ≡ first_passes is_small (chars name.now) }
{
    match name.chars().next() {
        Some(c) => is_small(c),
        None => false,
    }
}

/// Whether a name begins as a comment does.
fn begins_comment(name: &str) -> bool
    ensures { result ≡ begins_comment (chars name.now) }
{
    let mut characters = name.chars();
    let Some(first) = characters.next() else {
        return false;
    };
    match characters.next() {
        Some(second) => first == '/' && second == '*',
        None => false,
    }
}

/// Whether a name is a run of symbol characters that needs no quotes.
pub(crate) fn is_symbol_name(name: &str) -> bool
    ensures { result ≡ is_symbol_name (chars name.now) }
{
    begins_symbolic(name) && is_all_symbols(name) && !begins_comment(name) && !is_text(name, ".")
}

/// Whether a name is a small letter and then letters, digits and `_`.
pub(crate) fn is_letter_name(name: &str) -> bool
    ensures { result ≡ is_letter_name (chars name.now) }
{
    begins_small(name) && is_all_alphanumeric(name)
}

/// Whether a name is `!` or `;`.
pub(crate) fn is_solo_name(name: &str) -> bool
    ensures { result ≡ is_solo_name (chars name.now) }
{
    is_text(name, "!") || is_text(name, ";")
}

/// Whether a name is that of a list's cell.
pub(crate) fn is_cell_name(name: &str) -> bool
    ensures { result ≡ same_name (chars name.now) (codes ".") }
{
    is_text(name, ".")
}

/// Whether a name is `[]`.
pub(crate) fn is_nil(name: &str) -> bool
    ensures { result ≡ same_name (chars name.now) nil_name }
{
    is_text(name, "[]")
}

/// Whether a name is `{}`.
pub(crate) fn is_braces(name: &str) -> bool
    ensures { result ≡ same_name (chars name.now) braces_name }
{
    is_text(name, "{}")
}
