//! What an alternative has left to do, as a region defers it.
ghost use Rattle.std.specs.Prelude.{◌<◌, ◌^◌, [], ◌∷◌, IfOk, OnOk, length};
ghost use Rattle.task_region.specs.DeferringItems.{DefersItems};

use crate::DeferredItem;
use crate::heights::height;
use au_term::NoMemory;
use clause_compile::{Goals, Item};
use std::alloc::Global;

/// The items of a branch with heights, by the numbers of the nodes on the way down.
pub(crate) fn deferred_items(
    alloc: Global,
    goals: &Goals,
    numbers: &[u64],
) -> Result<Vec<DeferredItem>, NoMemory>
    requires few { length numbers.now < 2 ^ 32 }
    ensures { IfOk result (λ items. DefersItems numbers.now [] goals.now items.items) }
{
    let mut items = Vec::new(alloc);
    for item in goals.items() {
        push_item(&mut items, item, numbers)?;
    }
    Ok(items)
}

// The end of a query is none of them.
fn push_item(items: &mut Vec<DeferredItem>, item: &Item, numbers: &[u64]) -> Result<(), NoMemory>
    requires few { length numbers.now < 2 ^ 32 }
    ensures { OnOk result (DefersItems numbers.now items.old.items (item.now ∷ []) items.new.items) }
{
    let deferred = match item {
        Item::Goal { term, cut } => DeferredItem::Goal {
            term: term.share()?,
            cut: height(numbers, *cut),
        },
        Item::CatchEnd(scope) => DeferredItem::CatchEnd(height(numbers, *scope).saturating_sub(1)),
        Item::Collect { template, scope } => DeferredItem::Collect {
            template: template.share()?,
            over: height(numbers, *scope).saturating_sub(1),
        },
        Item::Remove(id) => DeferredItem::Removal(id.0),
        Item::End(_) => return Ok(()),
    };
    items.push(deferred)?;
    Ok(())
}
