//! Values and items as they are written.
ghost use Rattle.std.specs.Prelude.{◌≡◌, ◌<◌, ◌++◌, ◌∷◌, IfOk, List, length, map};
ghost use Rattle.au_model.specs.Terms.Each.{Each};
ghost use Rattle.run_model.specs.Machine.Items.{GoalItem};
ghost use Rattle.cell_store.specs.StoreView.{IsValueIn, text_in, value_term};
ghost use Rattle.region_split.specs.ChoicePoints.{IsMarkOf};
ghost use Rattle.region_split.specs.Frames.{scoped_item};
ghost use Rattle.region_split.specs.Regions.{IsItemHere};
ghost use Rattle.region_capture.specs.CapturedItems.{captured_item};
ghost use Rattle.region_capture.specs.CapturedMeanings.{captured_bindings};
ghost use Rattle.branch_bindings.specs.ExtensionLaws.{written_bindings};
ghost use Rattle.region_capture.specs.CaptureSteps.{AreWrittenOverFloor, AreWrittenSince};

use crate::items::CapturedItem;
use au_model::build::{atom, unary};
use au_term::{Binding, Bindings, FlatTerm, NoMemory, Shared};
use binding_array::BindingCell;
use branch_bindings::laws::made_bindings_extend;
use cell_store::Store;
use region_split::{FrameItem, Region};
use std::alloc::Global;

/// The term that a value is.
pub(crate) fn written_term(
    store: &Store,
    alloc: Global,
    value: BindingCell,
) -> Result<Shared, NoMemory>
    requires { IsValueIn store.now value }
    ensures { IfOk result (λ t. t ≡ value_term store.now value) }
{
    Shared::from_term(alloc, store.written(value)?)
}

/// An item with its scope.
pub(crate) fn written_item(
    region: &Region,
    alloc: Global,
    item: FrameItem,
    cut: u32,
) -> Result<CapturedItem, NoMemory>
    requires there { IsItemHere region.now item }
    requires mark { IsMarkOf region.now.choices cut item }
    ensures { IfOk result (λ i. captured_item i ≡ scoped_item (text_in region.now.store) item cut) }
{
    let store = region.store();
    match item {
        FrameItem::Goal(value) => written_goal(alloc, store.written(value)?, cut),
        FrameItem::Call(value) => {
            let callee = store.written(value)?;
            written_goal(alloc, unary(alloc, "call", &callee)?, cut)
        }
        FrameItem::Cut => written_goal(alloc, atom(alloc, "!")?, cut),
        FrameItem::True => written_goal(alloc, atom(alloc, "true")?, cut),
        FrameItem::Fail => written_goal(alloc, atom(alloc, "fail")?, cut),
        FrameItem::CatchEnd => Ok(CapturedItem::CatchEnd(cut - 1)),
        FrameItem::Collect(value) => {
            let template = written_term(store, alloc, value)?;
            let over = cut - 1;
            Ok(CapturedItem::Collect { template, over })
        }
        FrameItem::Removal(number) => Ok(CapturedItem::Removal(number)),
    }
}

/// A goal with its scope.
fn written_goal(alloc: Global, goal: FlatTerm, cut: u32) -> Result<CapturedItem, NoMemory>
    ensures { IfOk result (λ i. captured_item i ≡ GoalItem goal cut) }
{
    let term = Shared::from_term(alloc, goal)?;
    Ok(CapturedItem::Goal { term, cut })
}

/// The bindings that were made since the mark over so many others.
pub(crate) fn bindings_since(
    store: &Store,
    alloc: Global,
    mark: usize,
) -> Result<Bindings, NoMemory>
    requires { mark < length store.now.marks }
    ensures { IfOk result (AreWrittenSince store.now mark) }
{
    // The proof reads off that the store is sound.
    let _next = store.next();
    made_bindings_extend();
    let made = store.made_since(mark)?;
    written_values(store, alloc, &made)
}

/// The bindings that were made since the store's floor.
pub fn bindings_since_floor(store: &Store, alloc: Global) -> Result<Bindings, NoMemory>
    ensures { IfOk result (AreWrittenOverFloor store.now) }
{
    // The proof reads off that the store is sound.
    let _next = store.next();
    made_bindings_extend();
    let made = store.made_since_floor()?;
    written_values(store, alloc, &made)
}

/// Variables with the terms that their values are.
fn written_values(
    store: &Store,
    alloc: Global,
    made: &[(u32, BindingCell)],
) -> Result<Bindings, NoMemory>
    requires { Each (λ b. IsValueIn store.now b.1) made.now }
    ensures { IfOk result (λ bs. captured_bindings bs ≡ written_bindings store.now made.now) }
{
    let mut bindings = Bindings::new(alloc);
    for (variable, value) in made {
        let value = written_term(store, alloc, *value)?;
        let var = u64::from(*variable);
        bindings.push(Binding { var, value })?;
    }
    Ok(bindings)
}
