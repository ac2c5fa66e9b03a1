//! Calls: that they succeed, and their time.
ghost use Rattle.cell_store.specs.StoreView.{IsValueIn};

use crate::common::{expect, last, region, value};
use crate::regions::expect_fresh;
use au_model::build::{binary, single, unary};
use au_term::{Cell, FlatTerm, MAX_ARITY, NoMemory, VarNo};
use binding_array::BindingCell;
use meta_call::call_arguments;
use region_control::{AfterGoal, form_of};
use region_split::Region;
use std::alloc::Global;
use std::process::Abort;
use std::test::Fail;

/// Whether a goal of `call` goes on at a position.
fn goes_on(
    rt: &impl Abort,
    alloc: Global,
    region: &mut Region,
    goal: BindingCell,
) -> Result<bool, NoMemory>
    requires { IsValueIn region.old.store goal }
{
    let Some(form) = form_of(region.store(), goal) else {
        return Ok(false);
    };
    let arguments = form.arguments;
    assert!(rt; arguments.count > 0 && arguments.count <= MAX_ARITY);
    let place = last(region)?;
    Ok(is_position(&call_arguments(region, alloc, arguments, place)?))
}

fn is_position(after: &AfterGoal) -> bool {
    match after {
        AfterGoal::At(_) => true,
        _ => false,
    }
}

/// `call(foo(X), X)`.
fn goal(alloc: Global) -> Result<FlatTerm, NoMemory> {
    let variable = single(alloc, Cell::Var(0))?;
    binary(alloc, "call", &unary(alloc, "foo", &variable)?, &variable)
}

fn call_goes_on(rt: &impl Abort, alloc: Global, region: &mut Region) -> Result<bool, Fail> {
    let goal = value(rt, alloc, region, goal(alloc)?)?;
    Ok(goes_on(rt, alloc, region, goal)?)
}

/// `s` of a new variable.
fn successor(alloc: Global, region: &mut Region) -> Result<FlatTerm, NoMemory> {
    let next = region.fresh(1)?;
    unary(alloc, "s", &single(alloc, Cell::Var(VarNo::from(next)))?)
}

fn bind(
    rt: &impl Abort,
    region: &mut Region,
    variable: u32,
    term: BindingCell,
) -> Result<bool, NoMemory>
    requires { IsValueIn region.old.store term }
{
    assert!(rt; variable < region.store().next());
    region.unify(BindingCell::Var(variable), term)
}

/// Binds a variable to a compound of the next variable.
fn grow(rt: &impl Abort, alloc: Global, region: &mut Region, variable: u32) -> Result<bool, Fail> {
    let term = successor(alloc, region)?;
    let term = value(rt, alloc, region, term)?;
    Ok(bind(rt, region, variable, term)?)
}

/// The variable of a number gets a longer term, and the goal is called.
fn grow_and_call(
    rt: &impl Abort,
    alloc: Global,
    region: &mut Region,
    variable: u32,
) -> Result<(), Fail> {
    expect(rt, grow(rt, alloc, region, variable)?, true);
    expect(rt, call_goes_on(rt, alloc, region)?, true);
    Ok(())
}

/// A call copies nothing of what variables are bound to: else this would take ten thousand times as long.
fn grow_and_call_all(rt: &impl Abort, alloc: Global, region: &mut Region) -> Result<(), Fail> {
    expect_fresh(rt, region, 1, 0)?;
    for variable in 0..100_000 {
        grow_and_call(rt, alloc, region, variable)?;
    }
    Ok(())
}

#[test]
fn calls_with_a_growing_term(rt: HostRuntime) -> Result<(), Fail> {
    let mut region = region(rt.alloc())?;
    grow_and_call_all(&rt, rt.alloc(), &mut region)
}
