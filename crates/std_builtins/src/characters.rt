//! Characters and their codes, as terms (ISO/IEC 13211-1, 7.1.4.1 and 7.1.2.2).
ghost use Rattle.std.specs.Prelude.{◌≡◌, ◌∷◌, [], true, false, pos, IfOk, OnOk, MatchOption, ◌++◌, string_bytes};
ghost use Rattle.std.specs.Str.{chars};
ghost use lib.Utf8.{scalar};
ghost use Rattle.au_term.specs.Term.{IntTerm, AtomTerm};
ghost use Rattle.run_model.specs.Goals.AtomGoals.{is_character, is_character_code};
ghost use Rattle.std_builtins.specs.Characters.{IsCharacterOf};

use au_model::build::single;
use au_term::{Atom, Cell, FlatTerm, NoMemory};
use std::alloc::Global;

/// The character of a text that has one.
fn only_character(text: &str) -> Option<char>
    ensures { MatchOption result (is_character (AtomTerm (chars text.now)) ≡ false) (λ c. chars text.now ≡ c ∷ []) }
{
    let mut characters = text.chars();
    let Some(first) = characters.next() else {
        return None;
    };
    match characters.next() {
        Some(_) => None,
        None => Some(first),
    }
}

/// The character that a term is, if it is one.
pub fn character(term: &FlatTerm) -> Option<char>
    ensures { MatchOption result (is_character term.now ≡ false) (λ c. term.now ≡ AtomTerm (c ∷ [])) }
{
    match term.top() {
        Cell::Atom(name) => only_character(name.text()),
        _ => None,
    }
}

/// The character with this number, if there is one.
fn character_numbered(number: u64) -> Option<char>
    ensures { MatchOption result (scalar number ≡ false) (λ c. (c ≡ number) × (scalar number ≡ true)) }
{
    u32::try_from(number).ok().and_then(char::from_u32)
}

/// The character with this code, if there is one.
pub(crate) fn character_of_code(code: i64) -> Option<char>
    ensures { MatchOption result (is_character_code (IntTerm code) ≡ false) (IsCharacterOf code) }
{
    if code < 0 {
        return None;
    }
    character_numbered(code as u64)
}

/// The character whose code a term is, if it is one.
pub(crate) fn coded_character(term: &FlatTerm) -> Option<char>
    ensures { MatchOption result (is_character_code term.now ≡ false) (λ c. (term.now ≡ IntTerm (pos c)) × (scalar c ≡ true)) }
{
    match term.top() {
        Cell::Int(code) => character_of_code(*code),
        _ => None,
    }
}

/// The code of a character.
pub(crate) fn code_of(c: char) -> i64
    ensures { result ≡ pos c }
{
    i64::from(u32::from(c))
}

/// A character as a term.
pub(crate) fn character_term(alloc: Global, c: char) -> Result<FlatTerm, NoMemory>
    ensures { IfOk result (λ t. t ≡ AtomTerm (c ∷ [])) }
{
    let mut text = String::new(alloc);
    put(&mut text, c)?;
    atom_term(alloc, text.as_str())
}

/// The atom of a text.
pub(crate) fn atom_term(alloc: Global, text: &str) -> Result<FlatTerm, NoMemory>
    ensures { IfOk result (λ t. t ≡ AtomTerm (chars text.now)) }
{
    single(alloc, Cell::Atom(Atom::new(alloc, text)?))
}

/// Puts a character after a text.
pub(crate) fn put(text: &mut String, c: char) -> Result<(), NoMemory>
    ensures { OnOk result (chars (string_bytes text.new) ≡ chars (string_bytes text.old) ++ c ∷ []) }
{
    text.push(c)?;
    Ok(())
}
