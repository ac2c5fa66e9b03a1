//! Goals by their names and arguments.
ghost use Rattle.std.specs.Prelude.{◌≡◌, ◌<◌, false, MatchOption};
ghost use Rattle.au_term.specs.Term.{term_at};
ghost use Rattle.au_model.specs.Terms.Forms.{is_callable};
ghost use Rattle.cell_store.specs.StoreView.{IsValueIn, meaning};
ghost use Rattle.region_control.specs.GoalForms.{argument_terms, AreArgumentsIn, IsFormOf};

use binding_array::BindingCell;
use cell_store::Store;
use cell_store::arguments::{Arguments, arguments_of};

/// The number of a goal's name, and its arguments.
#[derive(Clone, Copy, Debug)]
pub struct GoalForm {
    pub name: u32,
    pub arguments: Arguments,
}

/// The name and the arguments of a value that can be called; none of a variable or an integer.
#[inline]
pub fn form_of(store: &Store, value: BindingCell) -> Option<GoalForm>
    requires { IsValueIn store.now value }
    ensures { MatchOption result (is_callable (meaning store.now value) ≡ false) (IsFormOf store.now value) }
{
    match store.dereference(value) {
        BindingCell::Atom(name) => {
            let arguments = Arguments {
                at: 0,
                base: 0,
                count: 0,
            };
            Some(GoalForm { name, arguments })
        }
        BindingCell::Compound(at, base) => Some(compound_form(store, at, base)),
        BindingCell::Free => unreachable!(),
        BindingCell::Var(_) => None,
        BindingCell::Int(_) => None,
    }
}

/// The same of a compound.
#[inline(always)]
pub fn compound_form(store: &Store, at: u32, base: u32) -> GoalForm
    requires { IsValueIn store.now (BindingCell.Compound at base) }
    ensures { IsFormOf store.now (BindingCell.Compound at base) result }
{
    let (name, count) = store.functor(at);
    let arguments = arguments_of((at, base), count);
    GoalForm { name, arguments }
}

/// An argument by its number, counted from 0.
#[inline(always)]
pub fn argument(store: &Store, arguments: Arguments, number: u32) -> BindingCell
    requires there { AreArgumentsIn store.now arguments }
    requires some { number < arguments.count }
    ensures there { IsValueIn store.now result }
    ensures term { meaning store.now result ≡ term_at number (argument_terms store.now arguments) }
{
    store.argument(arguments.at + number, arguments.base)
}
