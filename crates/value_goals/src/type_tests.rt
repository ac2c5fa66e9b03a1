//! What the term that a value stands for is (ISO/IEC 13211-1, 8.3).
ghost use Rattle.std.specs.Prelude.{◌≡◌, false, MatchOption};
ghost use Rattle.au_term.specs.Term.{IntTerm};
ghost use Rattle.au_model.specs.Terms.Forms.{is_callable};
ghost use Rattle.run_model.specs.Goals.TermTests.{is_variable, is_integer, is_atom, is_atomic, is_compound};
ghost use Rattle.cell_store.specs.StoreView.{IsValueIn, meaning};

use binding_array::BindingCell;
use cell_store::Store;

/// Whether a value stands for a variable.
pub fn is_variable(store: &Store, value: BindingCell) -> bool
    requires { IsValueIn store.now value }
    ensures { result ≡ is_variable (meaning store.now value) }
{
    matches!(store.dereference(value), BindingCell::Var(_))
}

/// Whether a value stands for an integer.
pub fn is_integer(store: &Store, value: BindingCell) -> bool
    requires { IsValueIn store.now value }
    ensures { result ≡ is_integer (meaning store.now value) }
{
    matches!(store.dereference(value), BindingCell::Int(_))
}

/// Whether a value stands for an atom.
pub fn is_atom(store: &Store, value: BindingCell) -> bool
    requires { IsValueIn store.now value }
    ensures { result ≡ is_atom (meaning store.now value) }
{
    matches!(store.dereference(value), BindingCell::Atom(_))
}

/// Whether a value stands for an integer or an atom.
pub fn is_atomic(store: &Store, value: BindingCell) -> bool
    requires { IsValueIn store.now value }
    ensures { result ≡ is_atomic (meaning store.now value) }
{
    matches!(
        store.dereference(value),
        BindingCell::Int(_) | BindingCell::Atom(_)
    )
}

/// Whether a value stands for a compound.
pub fn is_compound(store: &Store, value: BindingCell) -> bool
    requires { IsValueIn store.now value }
    ensures { result ≡ is_compound (meaning store.now value) }
{
    matches!(store.dereference(value), BindingCell::Compound(_, _))
}

/// Whether a value stands for an atom or a compound.
pub fn is_callable(store: &Store, value: BindingCell) -> bool
    requires { IsValueIn store.now value }
    ensures { result ≡ is_callable (meaning store.now value) }
{
    matches!(
        store.dereference(value),
        BindingCell::Atom(_) | BindingCell::Compound(_, _)
    )
}

/// The integer that a value stands for, if it is one.
#[inline]
pub fn integer_of(store: &Store, value: BindingCell) -> Option<i64>
    requires { IsValueIn store.now value }
    ensures { MatchOption result (is_integer (meaning store.now value) ≡ false) (λ z. meaning store.now value ≡ IntTerm z) }
{
    match store.dereference(value) {
        BindingCell::Int(value) => Some(value),
        _ => None,
    }
}
