//! Thrown balls (ISO/IEC 13211-1, 7.8.10).
ghost use Rattle.std.specs.Prelude.{◌≡◌, IfOk, OnOk};
ghost use Rattle.run_model.specs.Goals.Control.{throw_outcome};
ghost use Rattle.cell_store.specs.StoreView.{IsValueIn, meaning};
ghost use Rattle.region_control.specs.Controls.{IsGoalPlace};
ghost use Rattle.region_control.specs.Replies.{LeavesOutcome};

use au_model::Fault;
use au_term::{Atom, NoMemory};
use binding_array::BindingCell;
use region_control::{AfterGoal, GoalPlace, raise, raise_fault};
use region_split::Region;
use std::alloc::Global;
use value_goals::type_tests::is_variable;

/// Throws what a value stands for.
pub(crate) fn throw_value(
    region: &mut Region,
    alloc: Global,
    ball: BindingCell,
    place: GoalPlace,
) -> Result<AfterGoal, NoMemory>
    requires ball { IsValueIn region.old.store ball }
    requires place { IsGoalPlace region.old place }
    ensures comes { IfOk result (LeavesOutcome region.old region.new (throw_outcome (meaning region.old.store ball)) place) }
    ensures text { OnOk result (region.new.text ≡ region.old.text) }
    ensures floor { OnOk result (region.new.store.floor ≡ region.old.store.floor) }
{
    if is_variable(region.store(), ball) {
        let name = Atom::ascii(alloc, "throw")?;
        return raise_fault(region, alloc, &Fault::Instantiation, &name, 1, place);
    }
    let ball = region.store().resolve(ball)?;
    raise(region, alloc, &ball, place)
}
