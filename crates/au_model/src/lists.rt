//! Lists taken apart.
ghost use Rattle.std.specs.Prelude.{◌≡◌, ◌<◌, length, IfOk};
ghost use Rattle.au_term.specs.PrefixOrder.{cells_of, subterm, top_of};
ghost use Rattle.au_model.specs.Terms.ListForms.{list_form};
ghost use Rattle.au_model.specs.Terms.ListCells.{IsForm, opens_pair, ends_list};

use au_term::{Cell, FlatTerm, NoMemory};
use std::alloc::Global;

/// A list by its items, what ends in a variable where a list ends in `[]`, or any other term.
#[derive(Drop)]
pub enum ListForm {
    Proper(Vec<FlatTerm>),
    Partial(Vec<FlatTerm>),
    NoList,
}

/// What a term is as a list.
pub fn list_form(alloc: Global, term: &FlatTerm) -> Result<ListForm, NoMemory>
    ensures { IfOk result (IsForm (list_form term.now)) }
{
    let _cells = term.cells();
    let mut items = Vec::new(alloc);
    let mut at = 0;
    'items: while is_pair(top_at(term, at)) {
        let first = term.arg_start(at, 0);
        items.push(FlatTerm::from_slice(alloc, term.subterm(first))?)?;
        at = term.arg_start(at, 1);
    }
    Ok(ended(top_at(term, at), items))
}

/// The first cell of the subterm at a place.
fn top_at(term: &FlatTerm, at: usize) -> &Cell
    requires { at < length (cells_of term.now) }
    ensures { result.now ≡ top_of (subterm at term.now) }
{
    &term.cells()[at]
}

/// Whether a cell begins an item with the rest of its list.
fn is_pair(cell: &Cell) -> bool
    ensures { result ≡ opens_pair cell.now }
{
    match cell {
        Cell::Functor(name, arity) => *arity == 2 && name.is_text("."),
        _ => false,
    }
}

/// What items are before a term with this first cell that is no item with the rest of its list.
fn ended(cell: &Cell, items: Vec<FlatTerm>) -> ListForm
    ensures { IsForm (ends_list cell.now items.items) result }
{
    match cell {
        Cell::Var(_) => ListForm::Partial(items),
        Cell::Atom(name) if name.is_text("[]") => ListForm::Proper(items),
        _ => ListForm::NoList,
    }
}
