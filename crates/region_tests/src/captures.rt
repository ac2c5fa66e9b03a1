//! What no clause says of regions that are captured: that they are, and what comes of it.
ghost use Rattle.std.specs.Prelude.{◌≡◌, ◌<◌, length};

use crate::common::{expect, expect_height, integer, region};
use au_model::build::single;
use au_term::{Bindings, Cell, FlatTerm, NoMemory, Shared};
use binding_array::BindingCell;
use region_capture::{Captured, CapturedItem, CapturedItems, CapturedKind, capture};
use region_split::{Alternatives, FrameItem, Region};
use std::alloc::Global;
use std::process::Abort;
use std::test::Fail;

/// Over the end of a query and an alternative that calls a variable, the same goal with the variable bound to 7, and a new variable,
/// which nothing names, bound to 8.
fn capture_binding(alloc: Global, region: &mut Region) -> Result<Captured, NoMemory>
    requires none { length region.old.choices ≡ 0 }
    requires variable { 0 < region.old.store.now.next }
{
    region.set_floor();
    let end = region.nothing_left();
    region.push_choice(Alternatives::QueryEnd, end)?;
    let nothing = region.nothing_left();
    let goal = region.push_item(FrameItem::Goal(BindingCell::Var(0)), 1, nothing)?;
    region.push_choice(Alternatives::Elsewhere, goal)?;
    region.unify(BindingCell::Var(0), BindingCell::Int(7))?;
    let unnamed = region.fresh(1)?;
    region.unify(BindingCell::Var(unnamed), BindingCell::Int(8))?;
    capture(region, alloc, 1, goal)
}

/// Over the end of a query a variable bound to 7 and another bound to 8, and a choice point with nothing left over which a goal names
/// the first.
fn capture_reached(alloc: Global, region: &mut Region) -> Result<Captured, NoMemory>
    requires { length region.old.choices ≡ 0 }
{
    region.set_floor();
    let end = region.nothing_left();
    region.push_choice(Alternatives::QueryEnd, end)?;
    let reached = region.fresh(1)?;
    region.unify(BindingCell::Var(reached), BindingCell::Int(7))?;
    let dead = region.fresh(1)?;
    region.unify(BindingCell::Var(dead), BindingCell::Int(8))?;
    let nothing = region.nothing_left();
    region.push_choice(Alternatives::Elsewhere, nothing)?;
    let goal = region.push_item(FrameItem::Goal(BindingCell::Var(reached)), 1, nothing)?;
    capture(region, alloc, 1, goal)
}

fn expect_term(
    rt: &impl Abort,
    alloc: Global,
    found: &Shared,
    wanted: &FlatTerm,
) -> Result<(), Fail> {
    expect(rt, found.to_term(alloc)?.cells() == wanted.cells(), true);
    Ok(())
}

/// A number has one item: the goal of the variable, whose cut leaves one choice point.
fn expect_goal(
    rt: &impl Abort,
    alloc: Global,
    items: &CapturedItems,
    number: u32,
) -> Result<(), Fail> {
    assert!(rt; (number as usize) < items.numbers());
    let Some((item, after)) = items.first(number) else {
        return Err(Fail::new("no item"));
    };
    let CapturedItem::Goal { term, cut } = item else {
        return Err(Fail::new("no goal"));
    };
    expect(rt, (*cut, after), (1, items.nothing()));
    expect_term(rt, alloc, term, &single(alloc, Cell::Var(0))?)
}

/// The variable was bound to 7, and no other binding is given.
fn expect_bound(rt: &impl Abort, alloc: Global, bindings: &Bindings) -> Result<(), Fail> {
    for binding in bindings.as_slice() {
        expect(rt, binding.var, 0);
        expect_term(rt, alloc, &binding.value, &integer(alloc, 7)?)?;
    }
    expect(rt, bindings.as_slice().len(), 1);
    Ok(())
}

fn expect_unbound(rt: &impl Abort, bindings: &Bindings) {
    expect(rt, bindings.as_slice().len(), 0);
}

/// Nothing was bound but since the choice point, whose alternative has the same goal.
fn expect_captured(rt: &impl Abort, alloc: Global, captured: &Captured) -> Result<(), Fail> {
    expect_goal(rt, alloc, &captured.items, captured.current.first)?;
    expect_bound(rt, alloc, &captured.current.bindings)?;
    expect(rt, captured.choices.len(), 1);
    for choice in &captured.choices {
        expect(rt, matches!(&choice.kind, CapturedKind::Choice), true);
        expect_unbound(rt, &choice.below);
        expect(rt, (choice.next, choice.alternatives.len()), (1, 1));
        for alternative in &choice.alternatives {
            expect_goal(rt, alloc, &captured.items, alternative.first)?;
            expect_unbound(rt, &alternative.bindings);
        }
    }
    Ok(())
}

#[test]
fn bindings_are_where_they_were_made(rt: HostRuntime) -> Result<(), Fail> {
    let alloc = rt.alloc();
    let mut region = region(alloc)?;
    region.fresh(1)?;
    assert!(rt; region.height() == 0);
    assert!(rt; region.store().next() > 0);
    let captured = capture_binding(alloc, &mut region)?;
    expect_height(&rt, &region, 1);
    expect_captured(&rt, alloc, &captured)
}

/// The other variable was bound below the choice point too.
#[test]
fn what_nothing_reaches_is_left_out(rt: HostRuntime) -> Result<(), Fail> {
    let alloc = rt.alloc();
    let mut region = region(alloc)?;
    assert!(rt; region.height() == 0);
    let captured = capture_reached(alloc, &mut region)?;
    expect_height(&rt, &region, 1);
    expect_unbound(&rt, &captured.current.bindings);
    expect(&rt, captured.choices.len(), 1);
    for choice in &captured.choices {
        expect_bound(&rt, alloc, &choice.below)?;
    }
    Ok(())
}
