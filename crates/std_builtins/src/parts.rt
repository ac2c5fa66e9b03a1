//! Terms and the lists of their parts (ISO/IEC 13211-1, 8.5.3 and 8.5.4).
ghost use Rattle.std.specs.Prelude.{◌≡◌, ◌<◌, ◌++◌, [], length, IfOk, OnOk};
ghost use Rattle.au_term.specs.Term.{arguments};
ghost use Rattle.run_model.specs.Goals.ListForms.{ListForm as ListFormTerms, items_of};
ghost use Rattle.run_model.specs.Goals.TermParts.{parts_answer, taken_apart, built_from, term_of_items, compound_of as compound_answer, parts_of, copy_answer};
ghost use Rattle.std_builtins.specs.Answers.{IsAnswer};
ghost use Rattle.au_model.specs.Terms.ListCells.{IsForm};
ghost use Rattle.std_builtins.specs.Answers.{built_from_list};

use crate::answer::{BuiltinRefusal, Solution, equal, equal_with, failed};
use au_model::build::{atom, compound_of, list_of, single};
use au_model::copies::copy_term;
use au_model::lists::{ListForm, list_form};
use au_model::{DomainName, Fault, LimitName, TypeName};
use au_term::{Cell, FlatTerm, MAX_ARITY, NoMemory, VarNo};
use std::alloc::Global;

/// What `T =.. L` answers.
pub(crate) fn parts(
    alloc: Global,
    term: &FlatTerm,
    list: &FlatTerm,
) -> Result<Vec<Solution>, BuiltinRefusal>
    ensures { IsAnswer (parts_answer term.now list.now) result }
{
    let form = list_form(alloc, list)?;
    match term.top() {
        Cell::Var(_) => built_from(alloc, term, list, form),
        _ => taken_apart(alloc, term, list, form),
    }
}

/// What it answers for a term that is no variable.
fn taken_apart(
    alloc: Global,
    term: &FlatTerm,
    list: &FlatTerm,
    form: ListForm,
) -> Result<Vec<Solution>, BuiltinRefusal>
    ensures { (f : ListFormTerms) → IsForm f form → IsAnswer (taken_apart term.now list.now f) result }
{
    match form {
        ListForm::NoList => failed(Fault::WrongType(TypeName::ProperList, list.copy()?)),
        _ => {
            let parts = parts_of(alloc, term)?;
            equal(alloc, list.copy()?, list_of(alloc, &parts)?)
        }
    }
}

/// The name and the arguments of a compound, or an atomic term alone.
fn parts_of(alloc: Global, term: &FlatTerm) -> Result<Vec<FlatTerm>, NoMemory>
    ensures { IfOk result (λ parts. parts.items ≡ parts_of term.now) }
{
    let mut parts = Vec::new(alloc);
    match term.top() {
        Cell::Functor(name, _) => parts.push(single(alloc, Cell::Atom(name.share()?))?)?,
        _ => parts.push(term.copy()?)?,
    }
    push_arguments(alloc, term, &mut parts)?;
    Ok(parts)
}

/// Puts the arguments of a term after others.
fn push_arguments(alloc: Global, term: &FlatTerm, parts: &mut Vec<FlatTerm>) -> Result<(), NoMemory>
    ensures { OnOk result (parts.new.items ≡ parts.old.items ++ items_of (arguments term.now)) }
{
    for cells in term.args() {
        parts.push(FlatTerm::from_slice(alloc, cells)?)?;
    }
    Ok(())
}

/// What it answers for a variable.
fn built_from(
    alloc: Global,
    term: &FlatTerm,
    list: &FlatTerm,
    form: ListForm,
) -> Result<Vec<Solution>, BuiltinRefusal>
    ensures { (f : ListFormTerms) → IsForm f form → IsAnswer (built_from term.now list.now f) result }
{
    match form {
        ListForm::Partial(_) => failed(Fault::Instantiation),
        ListForm::NoList => failed(Fault::WrongType(TypeName::ProperList, list.copy()?)),
        ListForm::Proper(items) => built_from_items(alloc, term, &items),
    }
}

/// What it answers for a variable and a list of these items.
fn built_from_items(
    alloc: Global,
    term: &FlatTerm,
    items: &[FlatTerm],
) -> Result<Vec<Solution>, BuiltinRefusal>
    ensures { IsAnswer (built_from_list term.now items.now) result }
{
    match items {
        [] => failed(Fault::Domain(DomainName::NonEmptyList, atom(alloc, "[]")?)),
        [name] => atomic_part(alloc, term, name),
        [name, ..] => match name.top() {
            Cell::Var(_) => failed(Fault::Instantiation),
            _ => compound_part(alloc, term, name, &items[1..]),
        },
    }
}

/// What it answers for one item.
fn atomic_part(
    alloc: Global,
    term: &FlatTerm,
    name: &FlatTerm,
) -> Result<Vec<Solution>, BuiltinRefusal>
    ensures { IsAnswer (term_of_items term.now name.now []) result }
{
    match name.top() {
        Cell::Var(_) => failed(Fault::Instantiation),
        Cell::Functor(_, _) => failed(Fault::WrongType(TypeName::Atomic, name.copy()?)),
        _ => equal(alloc, term.copy()?, name.copy()?),
    }
}

/// What it answers for a name and arguments.
fn compound_part(
    alloc: Global,
    term: &FlatTerm,
    name: &FlatTerm,
    arguments: &[FlatTerm],
) -> Result<Vec<Solution>, BuiltinRefusal>
    requires { 0 < length arguments.now }
    ensures { IsAnswer (compound_answer term.now name.now arguments.now) result }
{
    match name.top() {
        Cell::Atom(functor) => {
            if arguments.len() > MAX_ARITY as usize {
                return failed(Fault::Representation(LimitName::MaxArity));
            }
            let made = compound_of(alloc, functor.share()?, arguments)?;
            equal(alloc, term.copy()?, made)
        }
        _ => failed(Fault::WrongType(TypeName::Atom, name.copy()?)),
    }
}

/// What `copy_term(T, U)` answers.
pub(crate) fn copied(
    alloc: Global,
    term: &FlatTerm,
    found: &FlatTerm,
    next: VarNo,
) -> Result<Vec<Solution>, BuiltinRefusal>
    ensures { IsAnswer (copy_answer term.now found.now next) result }
{
    let (copy, vars) = copy_term(alloc, term, next)?;
    equal_with(alloc, found.copy()?, copy, vars)
}
