//! Results for findalls of the branch.
ghost use Rattle.std.specs.Prelude.{◌≡◌, ℕ, Some, IfOk, IsSome, IsTrue, ◌↔◌, map, slice_get};
ghost use Rattle.run_model.specs.Machine.Items.{CollectMark};
ghost use Rattle.task_region.specs.DeferredItems.{item_of};
ghost use Rattle.task_region.specs.TaskResults.{HasNoChoice, IsResultNow};
ghost use Rattle.task_region.specs.TaskStops.{IsNextFor, IsResultAt};
ghost use Rattle.task_region.specs.declared.running.TaskStop.TheVariants.{Collect};

use crate::deferred::DeferredItem;
use crate::task::TaskRegion;
use au_term::{FlatTerm, NoMemory, Shared};

impl TaskRegion {
    /// Whether no choice point is left over the floor.
    pub fn has_no_choice(&self) -> bool
        requires { IsSome self.now.next }
        ensures { IsTrue result ↔ HasNoChoice self.now }
    {
        self.region.ends_are_oldest();
        self.region.height() == self.start.floor as usize
    }

    /// The result that is next, with what is bound now.
    pub fn into_result(self, number: u64) -> Result<FlatTerm, NoMemory>
        requires { IsNextFor (Collect number) self }
        ensures { IfOk result (IsResultNow self number) }
    {
        let mut region = self.region;
        let template = template_at(&self.start.deferred, number);
        let value = region.copy_in(template)?;
        region.store().resolve(value)
    }
}

/// The template of a result that is deferred.
fn template_at(deferred: &[DeferredItem], number: u64) -> &Shared
    requires { IsResultAt (map item_of deferred.now) number }
    ensures { (h : ℕ) × (slice_get (map item_of deferred.now) number ≡ Some (CollectMark result.now h)) }
{
    match deferred.get(number as usize) {
        Some(DeferredItem::Collect { template, over: _ }) => template,
        _ => unreachable!(),
    }
}
