//! The arguments of op/3 (ISO/IEC 13211-1, 8.14.3).
ghost use Rattle.std.specs.Prelude.{◌≡◌, ◌≤◌, IfOk, IfSome, is_some, option_map, pos};
ghost use Rattle.std.specs.List.{list_any};
ghost use Rattle.au_term.specs.Term.{IntTerm};
ghost use Rattle.au_model.specs.Terms.TermTypes.{is_variable};
ghost use Rattle.au_model.specs.Terms.ListForms.{ListForm as ListFormTerms};
ghost use Rattle.au_model.specs.Terms.ListCells.{IsForm};
ghost use Rattle.au_model.specs.Terms.ErrorTerms.{domain_error, type_error};
ghost use Rattle.au_model.specs.Terms.Faults.{domain_word, type_word};
ghost use Rattle.au_model.specs.Syntax.OperatorChanges.{argument_error, is_open_form, is_priority, items_in, named_items};
ghost use Rattle.op_table.specs.OperatorView.{kind_meant, operator_meant};
ghost use Rattle.op_table.specs.NameRows.{operator_by};
ghost use Rattle.op_table.specs.Arguments.{AreAtoms, AreItems, IsRead, IsRefusedWith, IsTested, atom_in, integer_in, list_error, no_atom_error};

use crate::operator::{MAX_PRIORITY, OpKind, Operator};
use crate::refusal::OpRefusal;
use au_model::lists::{ListForm, list_form};
use au_model::{DomainName, Fault, TypeName};
use au_term::{Atom, Cell, FlatTerm, NoMemory};
use std::alloc::Global;

/// What op/3 is asked for: the operator that names get; priority 0 takes it away.
#[derive(Drop)]
pub(crate) struct Change {
    pub(crate) priority: u16,
    pub(crate) kind: OpKind,
    pub(crate) names: Vec<Atom>,
}

impl Change {
    /// What the arguments ask for.
    pub(crate) fn read(
        alloc: Global,
        priority: &FlatTerm,
        specifier: &FlatTerm,
        names: &FlatTerm,
    ) -> Result<Change, OpRefusal>
        ensures { IsTested (argument_error priority.now specifier.now names.now) (IsRead priority.now specifier.now names.now) result }
    {
        let form = named_items(alloc, names)?;
        if is_variable(priority) || is_variable(specifier) || is_open(&form) {
            return Err(OpRefusal::Fault(Fault::Instantiation));
        }
        let Some(number) = integer(priority) else {
            return wrong_type(TypeName::Integer, priority);
        };
        let Some(word) = atom(specifier) else {
            return wrong_type(TypeName::Atom, specifier);
        };
        let names = atoms(alloc, &proper_items(names, form)?)?;
        let Some(priority) = priority_of(number) else {
            return wrong_value(DomainName::OperatorPriority, priority);
        };
        let Some(kind) = OpKind::named(word) else {
            return wrong_value(DomainName::OperatorSpecifier, specifier);
        };
        Ok(Change {
            priority,
            kind,
            names,
        })
    }

    /// The operator that the names get.
    pub(crate) fn operator(&self) -> Option<Operator>
        ensures { option_map operator_meant result ≡ operator_by self.now.priority (kind_meant self.now.kind) }
    {
        if self.priority == 0 {
            return None;
        }
        Some(Operator {
            priority: self.priority,
            kind: self.kind,
        })
    }
}

fn is_variable(term: &FlatTerm) -> bool
    ensures { result ≡ is_variable term.now }
{
    matches!(term.top(), Cell::Var(_))
}

fn integer(term: &FlatTerm) -> Option<i64>
    ensures { result ≡ integer_in term.now }
{
    match term.top() {
        Cell::Int(value) => Some(*value),
        _ => None,
    }
}

fn atom(term: &FlatTerm) -> Option<&Atom>
    ensures { option_map (λ a. a.now) result ≡ atom_in term.now }
{
    match term.top() {
        Cell::Atom(name) => Some(name),
        _ => None,
    }
}

/// A priority from 0 to 1200.
fn priority_of(number: i64) -> Option<u16>
    ensures range { is_some result ≡ is_priority (IntTerm number) }
    ensures value { IfSome result (λ n. (number ≡ pos n) × (n ≤ 1200)) }
{
    if number < 0 || number > i64::from(MAX_PRIORITY) {
        return None;
    }
    Some(number as u16)
}

/// The items of the third argument.
fn named_items(alloc: Global, names: &FlatTerm) -> Result<ListForm, NoMemory>
    ensures { IfOk result (IsForm (named_items names.now)) }
{
    match names.top() {
        Cell::Atom(name) if !name.is_text("[]") => {
            let mut items = Vec::new(alloc);
            items.push(names.copy()?)?;
            Ok(ListForm::Proper(items))
        }
        _ => list_form(alloc, names),
    }
}

/// Whether items may still become others.
fn is_open(form: &ListForm) -> bool
    ensures { (f : ListFormTerms) → IsForm f form.now → result ≡ is_open_form f }
{
    match form {
        ListForm::Proper(items) => has_variable(items),
        ListForm::Partial(_) => true,
        ListForm::NoList => false,
    }
}

/// Whether an item is a variable.
fn has_variable(items: &[FlatTerm]) -> bool
    ensures { result ≡ list_any is_variable items.now }
{
    for item in items {
        if is_variable(item) {
            return true;
        }
    }
    false
}

/// The items of a list.
fn proper_items(list: &FlatTerm, form: ListForm) -> Result<Vec<FlatTerm>, OpRefusal>
    ensures { (f : ListFormTerms) → IsForm f form → IsTested (list_error list.now f) (AreItems (items_in f)) result }
{
    match form {
        ListForm::Proper(items) => Ok(items),
        ListForm::Partial(_items) => wrong_type(TypeName::ProperList, list),
        ListForm::NoList => wrong_type(TypeName::ProperList, list),
    }
}

/// The names of items that are all atoms.
fn atoms(alloc: Global, items: &[FlatTerm]) -> Result<Vec<Atom>, OpRefusal>
    ensures { IsTested (no_atom_error items.now) (AreAtoms items.now) result }
{
    let mut names = Vec::new(alloc);
    for item in items {
        let Some(name) = atom(item) else {
            return wrong_type(TypeName::Atom, item);
        };
        names.push(name.share()?)?;
    }
    Ok(names)
}

fn wrong_type<T>(name: TypeName, culprit: &FlatTerm) -> Result<T, OpRefusal>
    ensures { IsRefusedWith (type_error (type_word name) culprit.now) result }
{
    Err(OpRefusal::Fault(Fault::WrongType(name, culprit.copy()?)))
}

fn wrong_value<T>(name: DomainName, culprit: &FlatTerm) -> Result<T, OpRefusal>
    ensures { IsRefusedWith (domain_error (domain_word name) culprit.now) result }
{
    Err(OpRefusal::Fault(Fault::Domain(name, culprit.copy()?)))
}
