//! What the tests share. A call of a store has its clauses in every later goal of its function, so each test calls small
//! functions that have few or none.
ghost use Rattle.std.specs.Prelude.{IfOk};
ghost use Rattle.cell_store.specs.StoreView.{AddsText, IsValueIn};

use au_term::{FlatTerm, Shared, VarNo};
use binding_array::BindingCell;
use cell_store::Store;
use std::alloc::Global;
use std::fmt::Debug;
use std::process::Abort;
use std::test::Fail;

/// What is found is what is wanted.
pub(crate) fn expect<T: PartialEq + Debug + Drop>(rt: &impl Abort, found: T, wanted: T) {
    assert_eq!(rt; found, wanted);
}

/// The value of a term.
pub(crate) fn value(
    rt: &impl Abort,
    alloc: Global,
    store: &mut Store,
    term: FlatTerm,
) -> Result<BindingCell, Fail>
    ensures there { IfOk result (IsValueIn store.new) }
    ensures others { IfOk result (λ _. AddsText store.old store.new) }
{
    let term = Shared::from_term(alloc, term)?;
    assert!(rt; term.to_term(alloc)?.bound() <= VarNo::from(store.next()));
    Ok(store.copy_in(&term)?)
}

/// The values of two terms.
pub(crate) fn values(
    rt: &impl Abort,
    alloc: Global,
    store: &mut Store,
    left: FlatTerm,
    right: FlatTerm,
) -> Result<(BindingCell, BindingCell), Fail>
    ensures left { IfOk result (λ v. IsValueIn store.new v.0) }
    ensures right { IfOk result (λ v. IsValueIn store.new v.1) }
{
    let left = value(rt, alloc, store, left)?;
    let right = value(rt, alloc, store, right)?;
    Ok((left, right))
}
