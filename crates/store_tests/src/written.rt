//! Values as they are written, and goals that a store puts together.
ghost use Rattle.cell_store.specs.ListGoals.{list_goal};
ghost use Rattle.cell_store.specs.StoreView.{IsValueIn};
ghost use Rattle.std.specs.Prelude.{◌≡◌, IfOk};

use crate::cells::{both, side, store, unifies};
use crate::common::{expect, value};
use au_model::build::{binary, list_of};
use au_term::{FlatTerm, NoMemory, VarNo};
use binding_array::BindingCell;
use cell_store::Store;
use std::alloc::Global;
use std::process::Abort;
use std::test::Fail;

/// A value as a term, with its bindings or as it is written.
fn as_term(store: &Store, value: BindingCell, follow: bool) -> Result<FlatTerm, NoMemory>
    requires { IsValueIn store.now value }
{
    if follow {
        store.resolve(value)
    } else {
        store.written(value)
    }
}

/// `p(V0, V3)` where `V0` is bound to `g(V1)`: as it is written, and what it stands for.
fn write_both_ways(rt: &impl Abort, alloc: Global, store: &mut Store) -> Result<(), Fail> {
    let pair = value(rt, alloc, store, both(alloc, &[(false, 0), (false, 3)])?)?;
    let bare = as_term(store, pair, false)?;
    expect(
        rt,
        bare.cells() == both(alloc, &[(false, 0), (false, 3)])?.cells(),
        true,
    );
    let whole = as_term(store, pair, true)?;
    expect(
        rt,
        whole.cells() == both(alloc, &[(true, 1), (false, 2)])?.cells(),
        true,
    );
    Ok(())
}

#[test]
fn terms_as_they_are_written(rt: HostRuntime) -> Result<(), Fail> {
    let alloc = rt.alloc();
    let mut store = store(alloc)?;
    let (left, right) = ([(false, 0), (false, 3)], [(true, 1), (false, 2)]);
    expect(&rt, unifies(&rt, alloc, &mut store, &left, &right)?, true);
    write_both_ways(&rt, alloc, &mut store)
}

/// The goal that unifies a term with a list.
fn goal_by_itself(alloc: Global, term: &FlatTerm, items: &[FlatTerm]) -> Result<FlatTerm, Fail>
    ensures { IfOk result (λ goal. goal ≡ list_goal term.now items.now) }
{
    Ok(binary(alloc, "=", term, &list_of(alloc, items)?)?)
}

/// That goal by itself, and the same as a store puts it together.
fn list_goals(
    rt: &impl Abort,
    alloc: Global,
    store: &mut Store,
    term: &FlatTerm,
    items: &[FlatTerm],
) -> Result<(FlatTerm, FlatTerm), Fail> {
    let wanted = goal_by_itself(alloc, term, items)?;
    assert!(rt; wanted.bound() <= VarNo::from(store.next()));
    let goal = store.list_goal(term, items)?;
    Ok((as_term(store, goal, true)?, wanted))
}

#[test]
fn goals_with_lists(rt: HostRuntime) -> Result<(), Fail> {
    let alloc = rt.alloc();
    let mut store = store(alloc)?;
    let term = side(alloc, (false, 2))?;
    let items = vec![in alloc;
        both(alloc, &[(true, 0), (false, 1)])?,
        side(alloc, (true, 3))?,
    ]?;
    for count in 0..3 {
        let (found, wanted) = list_goals(&rt, alloc, &mut store, &term, &items[..count])?;
        expect(&rt, found.cells() == wanted.cells(), true);
    }
    Ok(())
}
