//! The bindings that what is left can reach.
ghost use Rattle.std.specs.Prelude.{◌≡◌, ◌<◌, ◌≤◌, IfOk, OnOk, length};
ghost use Rattle.region_capture.specs.CapturedItems.{captured_item};
ghost use Rattle.region_capture.specs.KeptLevels.{AreReachedIn, IsBindingReached, IsItemReached, IsSeen, IsVariableReached, ReachesItems, ReachesValues};
ghost use Rattle.region_capture.specs.NeededBindings.{AddsBinding, SeesMore};
ghost use Rattle.au_model.specs.Terms.Each.{Each};

use crate::items::{CapturedItem, CapturedItems};
use crate::seen::SeenVariables;
use crate::writing::written_term;
use au_term::{Binding, Bindings, Cell, NoMemory, Shared, VarNo};
use cell_store::Store;
use std::alloc::Global;

/// Variables that were seen, by their numbers, and the bindings of those that are bound.
#[derive(Drop)]
pub(crate) struct Needed {
    pub(crate) seen: SeenVariables,
    pub(crate) bindings: Bindings,
}

/// Puts the binding of a variable to others, if it is bound.
pub(crate) fn write_binding(
    store: &Store,
    alloc: Global,
    variable: u32,
    bindings: &mut Bindings,
) -> Result<(), NoMemory>
    requires { variable < store.now.now.next }
    ensures { OnOk result (AddsBinding store.now variable bindings.old bindings.new) }
{
    if let Some(value) = store.binding(variable) {
        let value = written_term(store, alloc, value)?;
        let var = u64::from(variable);
        bindings.push(Binding { var, value })?;
    }
    Ok(())
}

/// Sees a variable, and puts its binding to the others if it came at a number or later.
fn see(
    store: &Store,
    alloc: Global,
    first: u32,
    variable: u32,
    needed: &mut Needed,
) -> Result<(), NoMemory>
    requires there { variable < store.now.now.next }
    requires long { store.now.now.next ≤ length needed.old.seen }
    ensures more { OnOk result (SeesMore store.now first needed.old needed.new) }
    ensures seen { OnOk result (IsSeen needed.new.seen variable) }
{
    if !needed.seen.has(variable) {
        needed.seen.see(variable)?;
        if variable >= first {
            write_binding(store, alloc, variable, &mut needed.bindings)?;
        }
    }
    Ok(())
}

/// Sees a variable by its number, if it is there.
fn see_number(
    store: &Store,
    alloc: Global,
    first: u32,
    variable: VarNo,
    needed: &mut Needed,
) -> Result<(), NoMemory>
    requires { store.now.now.next ≤ length needed.old.seen }
    ensures more { OnOk result (SeesMore store.now first needed.old needed.new) }
    ensures reached { OnOk result (IsVariableReached store.now.now.next needed.new.seen variable) }
{
    if variable < u64::from(store.next()) {
        see(store, alloc, first, variable as u32, needed)?;
    }
    Ok(())
}

/// Sees the variables of a term that are there.
pub(crate) fn reach_term(
    store: &Store,
    alloc: Global,
    first: u32,
    term: &Shared,
    needed: &mut Needed,
) -> Result<(), NoMemory>
    requires { store.now.now.next ≤ length needed.old.seen }
    ensures more { OnOk result (SeesMore store.now first needed.old needed.new) }
    ensures reached { OnOk result (AreReachedIn store.now.now.next needed.new.seen term.now) }
{
    for at in 0..term.len() {
        let (cell, base) = term.cell_at(at);
        match cell {
            Cell::Var(number) => see_number(store, alloc, first, base + *number, needed)?,
            _ => {}
        }
    }
    Ok(())
}

/// Sees the variables of an item.
fn reach_item(
    store: &Store,
    alloc: Global,
    first: u32,
    item: &CapturedItem,
    needed: &mut Needed,
) -> Result<(), NoMemory>
    requires { store.now.now.next ≤ length needed.old.seen }
    ensures more { OnOk result (SeesMore store.now first needed.old needed.new) }
    ensures reached { OnOk result (IsItemReached store.now.now.next needed.new.seen (captured_item item.now)) }
{
    match item {
        CapturedItem::Goal { term, .. } => reach_term(store, alloc, first, term, needed),
        CapturedItem::Collect { template, .. } => reach_term(store, alloc, first, template, needed),
        CapturedItem::CatchEnd(_) | CapturedItem::Removal(_) => Ok(()),
    }
}

/// Sees the variables of the items of a number.
pub(crate) fn reach_items(
    store: &Store,
    alloc: Global,
    first: u32,
    items: &CapturedItems,
    number: u32,
    needed: &mut Needed,
) -> Result<(), NoMemory>
    requires number { number < length items.now }
    requires long { store.now.now.next ≤ length needed.old.seen }
    ensures more { OnOk result (SeesMore store.now first needed.old needed.new) }
    ensures reached { OnOk result (ReachesItems store.now.now.next needed.new.seen items.now number) }
{
    let mut number = number;
    while let Some((item, after)) = items.first(number) {
        reach_item(store, alloc, first, item, needed)?;
        number = after;
    }
    Ok(())
}

/// Sees the variables of bindings, and those of their values.
pub(crate) fn reach_bindings(
    store: &Store,
    alloc: Global,
    first: u32,
    bindings: &[Binding],
    needed: &mut Needed,
) -> Result<(), NoMemory>
    requires { store.now.now.next ≤ length needed.old.seen }
    ensures more { OnOk result (SeesMore store.now first needed.old needed.new) }
    ensures reached { OnOk result (Each (IsBindingReached store.now.now.next needed.new.seen) bindings.now) }
{
    for binding in bindings {
        reach_binding(store, alloc, first, binding, needed)?;
    }
    Ok(())
}

fn reach_binding(
    store: &Store,
    alloc: Global,
    first: u32,
    binding: &Binding,
    needed: &mut Needed,
) -> Result<(), NoMemory>
    requires { store.now.now.next ≤ length needed.old.seen }
    ensures more { OnOk result (SeesMore store.now first needed.old needed.new) }
    ensures reached { OnOk result (IsBindingReached store.now.now.next needed.new.seen binding.now) }
{
    see_number(store, alloc, first, binding.var, needed)?;
    reach_term(store, alloc, first, &binding.value, needed)?;
    Ok(())
}

/// Sees the variables of the values of what was seen.
pub(crate) fn reach_values(
    store: &Store,
    alloc: Global,
    first: u32,
    needed: &mut Needed,
) -> Result<(), NoMemory>
    requires { store.now.now.next ≤ length needed.old.seen }
    ensures more { OnOk result (SeesMore store.now first needed.old needed.new) }
    ensures reached { OnOk result (ReachesValues store.now.now.next needed.new.seen needed.new.bindings) }
{
    let mut at = 0;
    while at < needed.bindings.as_slice().len() {
        let value = needed.bindings.as_slice()[at].value.share()?;
        reach_term(store, alloc, first, &value, needed)?;
        at += 1;
    }
    Ok(())
}
