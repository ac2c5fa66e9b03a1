//! Numbers and their texts (ISO/IEC 13211-1, 8.16.7 and 8.16.8).
ghost use Rattle.std.specs.Prelude.{◌≡◌, ◌≢◌, ◌≤◌, ◌^◌, ℕ, None, Some, IfSome, MatchOption};
ghost use Rattle.std.specs.List.{list_all};
ghost use Rattle.std.specs.Str.{chars};
ghost use Rattle.au_model.specs.Syntax.Characters.{chars_from};
ghost use Rattle.token_scan.specs.NextToken.{word_of, IsToken};
ghost use Rattle.run_model.specs.Goals.ListForms.{ListForm as ListFormTerms, NoList};
ghost use Rattle.run_model.specs.Goals.AtomGoals.{CharacterList as SpellingTerms, is_bound, with_text};
ghost use Rattle.run_model.specs.Goals.NumberTexts.{last_integer, without_sign, negated_number, number_in_text, numbered_answer, written_answer, number_text, number_text_answer};
ghost use Rattle.std_builtins.specs.Answers.{IsAnswer};
ghost use Rattle.au_model.specs.Terms.ListCells.{IsForm};
ghost use Rattle.std_builtins.specs.Meanings.{spelling_meant};
ghost use Rattle.std_builtins.specs.Texts.{unsigned_number, number_from};

use crate::answer::{BuiltinRefusal, Solution, equal, failed};
use crate::checks::Check;
use crate::integers::integer;
use crate::spelling::{Spelling, list_of_text, text_of_items};
use au_model::lists::{ListForm, list_form};
use au_model::{Fault, TypeName};
use au_term::{Cell, FlatTerm, is_text};
use itoa::Buffer;
use std::alloc::Global;
use token_scan::{Token, TokenKind, integer as number_of_token, next_token, spelling};

/// The number of an integer token with nothing after it.
fn last_integer(text: &str, token: &Token) -> Option<u64>
    requires { IsToken text.now token.now }
    ensures number { result ≡ last_integer (word_of text.now token.now) (chars_from text.now token.now.end) }
    ensures width { IfSome result (λ n. n ≤ 2 ^ 63) }
{
    if token.end < text.len() {
        return None;
    }
    match token.kind {
        TokenKind::Integer => Some(number_of_token(text, token)),
        _ => None,
    }
}

/// The integer of a number without a sign.
fn without_sign(number: u64) -> Option<i64>
    ensures { MatchOption result (without_sign number ≡ None) (λ z. without_sign number ≡ Some z) }
{
    if number >= 9_223_372_036_854_775_808 {
        return None;
    }
    Some(number as i64)
}

/// The integer of a number after a sign.
fn negated(number: u64) -> i64
    requires { number ≤ 2 ^ 63 }
    ensures { result ≡ negated_number number }
{
    if number == 0 {
        return 0;
    }
    -1 - (number - 1) as i64
}

/// The integer whose digits begin directly at a place, the end of a sign.
fn after_sign(text: &str, sign: &Token) -> Option<i64>
    requires { IsToken text.now sign.now }
    ensures { MatchOption result (unsigned_number (chars_from text.now sign.now.end) ≡ None) (λ z. unsigned_number (chars_from text.now sign.now.end) ≡ Some z) }
{
    let Ok(second) = next_token(text, sign.end) else {
        return None;
    };
    if second.layout_before {
        return None;
    }
    match last_integer(text, &second) {
        Some(number) => Some(negated(number)),
        None => None,
    }
}

/// The integer whose text begins with a name.
fn signed(text: &str, name: &Token) -> Option<i64>
    requires token { IsToken text.now name.now }
    requires name { name.now.kind ≡ TokenKind.Name }
    ensures { MatchOption result (number_from text.now name.now ≡ None) (λ z. number_from text.now name.now ≡ Some z) }
{
    if is_text(spelling(text, name), "-") {
        after_sign(text, name)
    } else {
        None
    }
}

/// The integer whose text this is, if there is one.
fn number_of(text: &str) -> Option<i64>
    ensures { MatchOption result (number_in_text (chars text.now) ≡ None) (λ z. number_in_text (chars text.now) ≡ Some z) }
{
    let Ok(first) = next_token(text, 0) else {
        return None;
    };
    match first.kind {
        TokenKind::Name => signed(text, &first),
        _ => match last_integer(text, &first) {
            Some(number) => without_sign(number),
            None => None,
        },
    }
}

/// What `number_chars(N, L)` and `number_codes(N, L)` answer.
pub(crate) fn number_text(
    alloc: Global,
    by: Spelling,
    number: &FlatTerm,
    list: &FlatTerm,
) -> Result<Vec<Solution>, BuiltinRefusal>
    ensures { IsAnswer (number_text_answer (spelling_meant by) number.now list.now) result }
{
    if !Check::OpenInteger.passes(number) {
        return failed(Fault::WrongType(TypeName::Integer, number.copy()?));
    }
    let form = list_form(alloc, list)?;
    number_of_form(alloc, by, number, list, form)
}

/// What they answer for a variable or an integer.
fn number_of_form(
    alloc: Global,
    by: Spelling,
    number: &FlatTerm,
    list: &FlatTerm,
    form: ListForm,
) -> Result<Vec<Solution>, BuiltinRefusal>
    ensures { (f : ListFormTerms) → IsForm f form → IsAnswer (number_text (spelling_meant by) number.now list.now f) result }
{
    match form {
        ListForm::NoList => unwritten(number, list),
        ListForm::Partial(_) => written(alloc, by, number, list),
        ListForm::Proper(items) => {
            if all_bound(&items) {
                number_of_items(alloc, by, number, &items)
            } else {
                written(alloc, by, number, list)
            }
        }
    }
}

/// Whether no item is a variable.
fn all_bound(items: &[FlatTerm]) -> bool
    ensures { result ≡ list_all is_bound items.now }
{
    items.iter().all(|item| !matches!(item.top(), Cell::Var(_)))
}

/// What they answer for items that are no variables.
fn number_of_items(
    alloc: Global,
    by: Spelling,
    number: &FlatTerm,
    items: &[FlatTerm],
) -> Result<Vec<Solution>, BuiltinRefusal>
    ensures { IsAnswer (with_text (spelling_meant by) items.now (λ cs. numbered_answer number.now (number_in_text cs))) result }
{
    let text = text_of_items(alloc, by, items)?;
    match number_of(text.as_str()) {
        Some(value) => equal(alloc, number.copy()?, integer(alloc, value)?),
        None => failed(Fault::Syntax),
    }
}

/// What they answer for a term that may become the list of the text.
fn written(
    alloc: Global,
    by: Spelling,
    number: &FlatTerm,
    list: &FlatTerm,
) -> Result<Vec<Solution>, BuiltinRefusal>
    ensures { (f : ListFormTerms) → f ≢ NoList → IsAnswer (written_answer (spelling_meant by) number.now list.now f) result }
{
    match number.top() {
        Cell::Int(value) => {
            let mut buffer = Buffer::new();
            let found = list_of_text(alloc, by, buffer.format(*value))?;
            equal(alloc, list.copy()?, found)
        }
        _ => failed(Fault::Instantiation),
    }
}

/// What they answer for a term that is no list and ends in no variable.
fn unwritten(number: &FlatTerm, list: &FlatTerm) -> Result<Vec<Solution>, BuiltinRefusal>
    ensures { (by : SpellingTerms) → IsAnswer (written_answer by number.now list.now NoList) result }
{
    match number.top() {
        Cell::Int(_) => failed(Fault::WrongType(TypeName::ProperList, list.copy()?)),
        _ => failed(Fault::Instantiation),
    }
}
