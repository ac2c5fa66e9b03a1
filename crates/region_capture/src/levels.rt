//! The bindings that were made between two choice points, or since the newest, without those that nothing can reach.
ghost use Rattle.std.specs.Prelude.{◌≡◌, ℕ, ◌<◌, ◌≤◌, IfOk, OnOk, length};
ghost use Rattle.std.specs.List.{Contains};
ghost use Rattle.au_model.specs.Terms.Each.{Each};
ghost use Rattle.region_capture.specs.KeptLevels.{IsKindReached, IsSeen, ReachesAlternative, ReachesItems};
ghost use Rattle.region_capture.specs.NeededBindings.{Forgets, KeepsSince, OpensLevel, SeesMore, SeesThese, WritesSeen};

use crate::captured::{CapturedAlternative, CapturedKind};
use crate::items::CapturedItems;
use crate::needed::{Needed, reach_bindings, reach_items, reach_term, reach_values, write_binding};
use crate::seen::SeenVariables;
use au_term::{Bindings, NoMemory};
use cell_store::Store;
use std::alloc::Global;

/// The bindings since a mark that the items of a number or what was seen can reach, and what was seen then.
pub(crate) fn bindings_for_items(
    store: &Store,
    alloc: Global,
    mark: usize,
    items: &CapturedItems,
    number: u32,
    seen: SeenVariables,
) -> Result<(Bindings, SeenVariables), NoMemory>
    requires mark { mark < length store.now.marks }
    requires number { number < length items.now }
    requires long { store.now.now.next ≤ length seen }
    ensures keeps { IfOk result (λ r. KeepsSince store.now mark seen r.1 r.0) }
    ensures reached { IfOk result (λ r. ReachesItems store.now.now.next r.1 items.now number) }
{
    let first = store.next_at(mark);
    let mut needed = open_level(store, alloc, mark, seen)?;
    reach_items(store, alloc, first, items, number, &mut needed)?;
    reach_values(store, alloc, first, &mut needed)?;
    Ok((needed.bindings, needed.seen))
}

/// The bindings since a mark that a choice point of a kind with these alternatives or what was seen can reach, and what was seen then.
pub(crate) fn bindings_for_choice(
    store: &Store,
    alloc: Global,
    mark: usize,
    items: &CapturedItems,
    kind: &CapturedKind,
    alternatives: &[CapturedAlternative],
    seen: SeenVariables,
) -> Result<(Bindings, SeenVariables), NoMemory>
    requires mark { mark < length store.now.marks }
    requires numbers { Each (λ a. a.first < length items.now) alternatives.now }
    requires long { store.now.now.next ≤ length seen }
    ensures keeps { IfOk result (λ r. KeepsSince store.now mark seen r.1 r.0) }
    ensures kind { IfOk result (λ r. IsKindReached store.now.now.next r.1 kind.now) }
    ensures alternatives { IfOk result (λ r. Each (ReachesAlternative store.now.now.next r.1 items.now) alternatives.now) }
{
    let first = store.next_at(mark);
    let mut needed = open_level(store, alloc, mark, seen)?;
    reach_kind(store, alloc, first, kind, &mut needed)?;
    reach_alternatives(store, alloc, first, items, alternatives, &mut needed)?;
    reach_values(store, alloc, first, &mut needed)?;
    Ok((needed.bindings, needed.seen))
}

/// The bindings since a mark of what was seen, and of all older variables that were bound since.
fn open_level(
    store: &Store,
    alloc: Global,
    mark: usize,
    seen: SeenVariables,
) -> Result<Needed, NoMemory>
    requires mark { mark < length store.now.marks }
    requires long { store.now.now.next ≤ length seen }
    ensures { IfOk result (OpensLevel store.now mark seen) }
{
    // The proof reads off that the store is sound.
    let _next = store.next();
    let older = store.older_since(mark)?;
    let mut seen = seen;
    forget(&older, &mut seen);
    let mut needed = see_older(store, alloc, &older, seen)?;
    write_seen(store, alloc, store.next_at(mark), &mut needed)?;
    Ok(needed)
}

/// Takes variables for unseen, so that each is written once where it stands twice among them.
fn forget(variables: &[u32], seen: &mut SeenVariables)
    requires { Each (λ v. v < length seen.old) variables.now }
    ensures { Forgets variables.now seen.old seen.new }
{
    for variable in variables {
        seen.forget(*variable);
    }
}

/// Sees variables that were not seen yet, with the bindings of those that are bound.
fn see_older(
    store: &Store,
    alloc: Global,
    variables: &[u32],
    seen: SeenVariables,
) -> Result<Needed, NoMemory>
    requires there { Each (λ v. v < store.now.now.next) variables.now }
    requires long { store.now.now.next ≤ length seen }
    requires unseen { (v : ℕ) → Contains variables.now v → IsSeen seen v → ⊥ }
    ensures { IfOk result (SeesThese store.now variables.now seen) }
{
    let bindings = Bindings::new(alloc);
    let mut needed = Needed { seen, bindings };
    for variable in variables {
        if !needed.seen.has(*variable) {
            needed.seen.see(*variable)?;
            write_binding(store, alloc, *variable, &mut needed.bindings)?;
        }
    }
    Ok(needed)
}

/// Puts the bindings of variables from a number on to the others, of those that were seen.
fn write_seen(store: &Store, alloc: Global, first: u32, needed: &mut Needed) -> Result<(), NoMemory>
    requires first { first ≤ store.now.now.next }
    requires long { store.now.now.next ≤ length needed.old.seen }
    ensures { OnOk result (WritesSeen store.now first store.now.now.next needed.old needed.new) }
{
    for variable in first..store.next() {
        if needed.seen.has(variable) {
            write_binding(store, alloc, variable, &mut needed.bindings)?;
        }
    }
    Ok(())
}

/// Sees the variables of what a catch or a findall has.
fn reach_kind(
    store: &Store,
    alloc: Global,
    first: u32,
    kind: &CapturedKind,
    needed: &mut Needed,
) -> Result<(), NoMemory>
    requires { store.now.now.next ≤ length needed.old.seen }
    ensures more { OnOk result (SeesMore store.now first needed.old needed.new) }
    ensures reached { OnOk result (IsKindReached store.now.now.next needed.new.seen kind.now) }
{
    match kind {
        CapturedKind::Choice => Ok(()),
        CapturedKind::Catch { catcher, recovery } => {
            reach_term(store, alloc, first, catcher, needed)?;
            reach_term(store, alloc, first, recovery, needed)?;
            Ok(())
        }
        CapturedKind::Findall { list, .. } => reach_term(store, alloc, first, list, needed),
    }
}

/// Sees the variables of what alternatives have left, and of their bindings.
fn reach_alternatives(
    store: &Store,
    alloc: Global,
    first: u32,
    items: &CapturedItems,
    alternatives: &[CapturedAlternative],
    needed: &mut Needed,
) -> Result<(), NoMemory>
    requires numbers { Each (λ a. a.first < length items.now) alternatives.now }
    requires long { store.now.now.next ≤ length needed.old.seen }
    ensures more { OnOk result (SeesMore store.now first needed.old needed.new) }
    ensures reached { OnOk result (Each (ReachesAlternative store.now.now.next needed.new.seen items.now) alternatives.now) }
{
    for alternative in alternatives {
        reach_items(store, alloc, first, items, alternative.first, needed)?;
        reach_bindings(store, alloc, first, alternative.bindings.as_slice(), needed)?;
    }
    Ok(())
}
