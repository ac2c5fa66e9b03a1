//! Whether terms unify, as a test (ISO/IEC 13211-1, 8.2.3).
ghost use Rattle.std.specs.Prelude.{◌≡◌, ◌≤◌, ◌∷◌, [], IfOk, is_none};
ghost use Rattle.au_term.specs.Term.{var_bound};
ghost use Rattle.au_model.specs.Terms.Unifier.{unifier};
ghost use Rattle.cell_store.specs.StoreView.{AddsText, IsValueIn, substitution, value_term};

use au_model::copies::Renaming;
use au_term::{FlatTerm, NoMemory, Shared};
use binding_array::BindingCell;
use cell_store::Store;
use clause_compile::Code;
use std::alloc::Global;
use std::sync::Arc;

/// Whether two terms have no unifier.
pub(crate) fn differ(alloc: Global, left: &FlatTerm, right: &FlatTerm) -> Result<bool, NoMemory>
    ensures { IfOk result (λ apart. apart ≡ is_none (unifier ((left.now, right.now) ∷ []))) }
{
    let (left, right, variables) = renumbered(alloc, left, right)?;
    have_no_unifier(alloc, left, right, variables)
}

/// Two terms with their variables numbered from 0 on, and how many these are, so that a store need have no more than theirs.
fn renumbered(
    alloc: Global,
    left: &FlatTerm,
    right: &FlatTerm,
) -> Result<(FlatTerm, FlatTerm, u32), NoMemory>
    ensures left { IfOk result (λ r. var_bound r.0 ≤ r.2) }
    ensures right { IfOk result (λ r. var_bound r.1 ≤ r.2) }
    ensures same { IfOk result (λ r. is_none (unifier ((r.0, r.1) ∷ [])) ≡ is_none (unifier ((left.now, right.now) ∷ []))) }
{
    let left = Renaming::new(alloc).copy(alloc, left, 0)?;
    let right = left.renaming.copy(alloc, right, 0)?;
    let Ok(variables) = u32::try_from(right.renaming.count()) else {
        return Err(NoMemory);
    };
    Ok((left.term, right.term, variables))
}

/// Whether two terms, all of whose variables have numbers below this, have no unifier.
fn have_no_unifier(
    alloc: Global,
    left: FlatTerm,
    right: FlatTerm,
    variables: u32,
) -> Result<bool, NoMemory>
    requires left { var_bound left ≤ variables }
    requires right { var_bound right ≤ variables }
    ensures { IfOk result (λ apart. apart ≡ is_none (unifier ((left, right) ∷ []))) }
{
    let mut store = store_of(alloc, variables)?;
    are_apart_in(&mut store, alloc, left, right)
}

/// The same in a store that has these variables, none of which is bound.
fn are_apart_in(
    store: &mut Store,
    alloc: Global,
    left: FlatTerm,
    right: FlatTerm,
) -> Result<bool, NoMemory>
    requires left { var_bound left ≤ store.old.now.next }
    requires right { var_bound right ≤ store.old.now.next }
    requires bound { substitution store.old ≡ [] }
    ensures { IfOk result (λ apart. apart ≡ is_none (unifier ((left, right) ∷ []))) }
{
    let left = value_in(alloc, store, left)?;
    let right = value_in(alloc, store, right)?;
    Ok(!store.unify(left, right)?)
}

/// A store with so many variables, none of which is bound.
fn store_of(alloc: Global, variables: u32) -> Result<Store, NoMemory>
    ensures next { IfOk result (λ store. store.now.next ≡ variables) }
    ensures bound { IfOk result (λ store. substitution store ≡ []) }
{
    let mut store = Store::new(alloc, Arc::new(alloc, Code::new(alloc))?)?;
    store.fresh(variables)?;
    Ok(store)
}

/// The value of a term.
fn value_in(alloc: Global, store: &mut Store, term: FlatTerm) -> Result<BindingCell, NoMemory>
    requires { var_bound term ≤ store.old.now.next }
    ensures there { IfOk result (IsValueIn store.new) }
    ensures term { IfOk result (λ value. value_term store.new value ≡ term) }
    ensures others { IfOk result (λ _. AddsText store.old store.new) }
{
    store.copy_in(&Shared::from_term(alloc, term)?)
}
