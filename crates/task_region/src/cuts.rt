//! Goals that cut to their scope.
ghost use Rattle.std.specs.Prelude.{◌<◌, IsTrue, ◌↔◌};
ghost use Rattle.cell_store.specs.StoreView.{IsValueIn, meaning, text_in};
ghost use Rattle.region_split.specs.Frames.{IsItemIn};
ghost use Rattle.task_region.specs.CutGoals.{IsCutCall, IsCutItem};

use binding_array::BindingCell;
use cell_store::Store;
use region_control::form_of;
use region_split::FrameItem;

/// Whether a goal is a cut to one of so many nodes of the branch.
#[inline]
pub(crate) fn cuts_to_floor(store: &Store, item: FrameItem, cut: u32, floor: u32) -> bool
    requires { IsItemIn (text_in store.now) store.now.now.next item }
    ensures { IsTrue result ↔ ((cut < floor) × IsCutItem store.now item) }
{
    if floor <= cut {
        return false;
    }
    is_cut(store, item)
}

/// Whether an item is a cut.
fn is_cut(store: &Store, item: FrameItem) -> bool
    requires { IsItemIn (text_in store.now) store.now.now.next item }
    ensures { IsTrue result ↔ IsCutItem store.now item }
{
    match item {
        FrameItem::Cut => true,
        FrameItem::Goal(value) => is_cut_value(store, value),
        _ => false,
    }
}

/// Whether a value stands for a cut.
fn is_cut_value(store: &Store, value: BindingCell) -> bool
    requires { IsValueIn store.now value }
    ensures { IsTrue result ↔ IsCutCall (meaning store.now value) }
{
    let Some(form) = form_of(store, value) else {
        return false;
    };
    if form.arguments.count != 0 {
        return false;
    }
    store.name(form.name).is_text("!")
}
