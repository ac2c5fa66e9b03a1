//! Texts as lists of their characters or of their codes (ISO/IEC 13211-1, 8.16.4 and 8.16.5).
ghost use lib.Utf8.{scalar};
ghost use Rattle.std.specs.Prelude.{◌≡◌, ℕ, List, true, false, map, IfOk, MatchOption};
ghost use Rattle.std.specs.Str.{chars};
ghost use Rattle.au_term.specs.Term.{AtomTerm};
ghost use Rattle.au_model.specs.Terms.Faults.{error_term_of};
ghost use Rattle.au_model.specs.Terms.Forms.{list_term};
ghost use Rattle.run_model.specs.Goals.BuiltinAnswers.{Answer, equal};
ghost use Rattle.run_model.specs.Goals.ListForms.{list_form};
ghost use Rattle.run_model.specs.Goals.AtomGoals.{code_of, item_for, spelling_answer, with_list, with_text};
ghost use Rattle.std_builtins.specs.Answers.{IsAnswer};
ghost use Rattle.std_builtins.specs.Meanings.{spelling_meant};
ghost use Rattle.std_builtins.specs.Texts.{item_test, item_error, AreItemsRead, IsTextOfItems};

use crate::answer::{BuiltinRefusal, Solution, equal, failed};
use crate::characters::{atom_term, character, character_term, code_of, coded_character, put};
use crate::checks::{Check, check_each};
use crate::integers::integer;
use au_model::build::list_of;
use au_model::lists::{ListForm, list_form};
use au_model::{Fault, LimitName, TypeName};
use au_term::{Cell, FlatTerm, NoMemory};
use std::alloc::Global;

/// What stands for a character in a list.
#[derive(Clone, Copy, Debug, PartialEq, Eq)]
pub enum Spelling {
    Characters,
    Codes,
}

impl Spelling {
    /// The item for a character.
    fn item(self, alloc: Global, c: char) -> Result<FlatTerm, NoMemory>
        ensures { IfOk result (λ t. t ≡ item_for (spelling_meant self) c) }
    {
        match self {
            Spelling::Characters => character_term(alloc, c),
            Spelling::Codes => integer(alloc, code_of(c)),
        }
    }

    /// The character that an item stands for, if there is one.
    fn character(self, item: &FlatTerm) -> Option<char>
        ensures { MatchOption result (item_test self item.now ≡ false) (λ c. (item_test self item.now ≡ true) × (code_of item.now ≡ c) × (scalar c ≡ true)) }
    {
        match self {
            Spelling::Characters => character(item),
            Spelling::Codes => coded_character(item),
        }
    }

    /// The error of an item that stands for none.
    fn fault(self, item: &FlatTerm) -> Result<Fault, NoMemory>
        ensures { IfOk result (λ fault. item_error self item.now ≡ error_term_of fault) }
    {
        match self {
            Spelling::Characters => Ok(Fault::WrongType(TypeName::Character, item.copy()?)),
            Spelling::Codes => Ok(Fault::Representation(LimitName::CharacterCode)),
        }
    }
}

/// The list of a text.
pub(crate) fn list_of_text(alloc: Global, by: Spelling, text: &str) -> Result<FlatTerm, NoMemory>
    ensures { IfOk result (λ t. t ≡ list_term (map (item_for (spelling_meant by)) (chars text.now))) }
{
    let mut items = Vec::new(alloc);
    for c in text.chars() {
        items.push(by.item(alloc, c)?)?;
    }
    list_of(alloc, &items)
}

/// The text of items, or the error of the first that stands for no character.
fn text_of(alloc: Global, by: Spelling, items: &[FlatTerm]) -> Result<String, BuiltinRefusal>
    ensures { AreItemsRead by items.now result }
{
    let mut text = String::new(alloc);
    for item in items {
        match by.character(item) {
            Some(c) => put(&mut text, c)?,
            None => return Err(BuiltinRefusal::Fault(by.fault(item)?)),
        }
    }
    Ok(text)
}

/// The text of a list's items, none of which is a variable.
pub(crate) fn text_of_items(
    alloc: Global,
    by: Spelling,
    items: &[FlatTerm],
) -> Result<String, BuiltinRefusal>
    ensures { (answer : List ℕ → Answer) → IsTextOfItems (with_text (spelling_meant by) items.now answer) answer result }
{
    match by {
        Spelling::Characters => {}
        Spelling::Codes => check_each(Check::Integer, items)?,
    }
    text_of(alloc, by, items)
}

/// What `atom_chars(A, L)` and `atom_codes(A, L)` answer.
pub(crate) fn atom_text(
    alloc: Global,
    by: Spelling,
    atom: &FlatTerm,
    list: &FlatTerm,
) -> Result<Vec<Solution>, BuiltinRefusal>
    ensures { IsAnswer (spelling_answer (spelling_meant by) atom.now list.now) result }
{
    match atom.top() {
        Cell::Var(_) => atom_of_list(alloc, by, atom, list),
        Cell::Atom(name) => {
            let found = list_of_text(alloc, by, name.text())?;
            equal(alloc, list.copy()?, found)
        }
        _ => failed(Fault::WrongType(TypeName::Atom, atom.copy()?)),
    }
}

/// What they answer for a variable.
fn atom_of_list(
    alloc: Global,
    by: Spelling,
    atom: &FlatTerm,
    list: &FlatTerm,
) -> Result<Vec<Solution>, BuiltinRefusal>
    ensures { IsAnswer (with_list list.now (list_form list.now) (λ ts. with_text (spelling_meant by) ts (λ cs. equal atom.now (AtomTerm cs)))) result }
{
    match list_form(alloc, list)? {
        ListForm::Partial(_) => failed(Fault::Instantiation),
        ListForm::NoList => failed(Fault::WrongType(TypeName::ProperList, list.copy()?)),
        ListForm::Proper(items) => {
            check_each(Check::Bound, &items)?;
            let text = text_of_items(alloc, by, &items)?;
            let made = atom_term(alloc, text.as_str())?;
            equal(alloc, atom.copy()?, made)
        }
    }
}
