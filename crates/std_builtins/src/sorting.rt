//! Lists sorted (ISO/IEC 13211-1, second corrigendum, 8.4.3 and 8.4.4).
ghost use Rattle.std.specs.Prelude.{◌≡◌, List, codes, Err};
ghost use Rattle.au_term.specs.Term.{Term};
ghost use Rattle.au_model.specs.Terms.ErrorTerms.{type_error};
ghost use Rattle.run_model.specs.Goals.BuiltinAnswers.{Answer};
ghost use Rattle.run_model.specs.Goals.ListForms.{list_form};
ghost use Rattle.run_model.specs.Goals.Sorting.{sort_answer, keysort_answer, sorted_into};
ghost use Rattle.std_builtins.specs.Answers.{IsAnswer};
ghost use Rattle.std_builtins.specs.Checks.{AreItemsFor};

use crate::answer::{BuiltinRefusal, Solution, equal};
use crate::checks::{Check, check_each};
use au_model::build::list_of;
use au_model::lists::{ListForm, list_form};
use au_model::{Fault, TypeName};
use au_term::FlatTerm;
use std::alloc::Global;
use term_order::{key_sort, sort_unique};

/// What `sort(L, S)` answers.
pub(crate) fn sort(
    alloc: Global,
    list: &FlatTerm,
    sorted: &FlatTerm,
) -> Result<Vec<Solution>, BuiltinRefusal>
    ensures { IsAnswer (sort_answer list.now sorted.now) result }
{
    let mut items = items_to_sort(alloc, list, sorted)?;
    sort_unique(&mut items)?;
    equal(alloc, sorted.copy()?, list_of(alloc, &items)?)
}

/// What `keysort(L, S)` answers.
pub(crate) fn keysort(
    alloc: Global,
    list: &FlatTerm,
    sorted: &FlatTerm,
) -> Result<Vec<Solution>, BuiltinRefusal>
    ensures { IsAnswer (keysort_answer list.now sorted.now) result }
{
    let mut pairs = items_to_sort(alloc, list, sorted)?;
    check_each(Check::Pair, &pairs)?;
    key_sort(&mut pairs)?;
    equal(alloc, sorted.copy()?, list_of(alloc, &pairs)?)
}

/// The items of a list, where the other term may become one.
fn items_to_sort(
    alloc: Global,
    list: &FlatTerm,
    sorted: &FlatTerm,
) -> Result<Vec<FlatTerm>, BuiltinRefusal>
    ensures { (answer : List Term → Answer) → AreItemsFor (sorted_into list.now sorted.now (list_form list.now) (list_form sorted.now) answer) answer result }
{
    match list_form(alloc, list)? {
        ListForm::Partial(_) => Err(BuiltinRefusal::Fault(Fault::Instantiation)),
        ListForm::NoList => no_list(list),
        ListForm::Proper(items) => match list_form(alloc, sorted)? {
            ListForm::NoList => no_list(sorted),
            _ => Ok(items),
        },
    }
}

/// The error of a term that should be a list.
fn no_list(term: &FlatTerm) -> Result<Vec<FlatTerm>, BuiltinRefusal>
    ensures { (answer : List Term → Answer) → AreItemsFor (Err (type_error (codes "list") term.now)) answer result }
{
    let culprit = term.copy()?;
    Err(BuiltinRefusal::Fault(Fault::WrongType(TypeName::ProperList, culprit)))
}
