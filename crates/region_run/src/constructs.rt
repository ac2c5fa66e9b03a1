//! Goals of control constructs (ISO/IEC 13211-1, 7.8, 8.10.1 and 8.15).
ghost use Rattle.std.specs.Prelude.{◌≡◌, IfOk, OnOk};
ghost use Rattle.au_term.specs.Term.{argument_count};
ghost use Rattle.au_model.specs.Terms.Forms.{name_of};
ghost use Rattle.cell_store.specs.StoreView.{IsValueIn, meaning};
ghost use Rattle.std_builtins.specs.Controls.{IsControl};
ghost use Rattle.region_control.specs.Controls.{IsGoalPlace};
ghost use Rattle.region_control.specs.GoalForms.{IsFormOf};
ghost use Rattle.region_run.specs.Inferences.{Infers};

use crate::openings::{
    catch_taken, either_taken, findall_taken, not_taken, once_taken, then_taken,
};
use crate::throws::throw_value;
use au_term::NoMemory;
use binding_array::BindingCell;
use meta_call::call_arguments;
use region_control::{AfterGoal, GoalForm, GoalPlace, argument, cut};
use region_split::Region;
use std::alloc::Global;
use std_builtins::Control;

/// Takes a goal of a control construct.
#[inline(always)]
pub(crate) fn construct_taken(
    region: &mut Region,
    alloc: Global,
    control: Control,
    goal: BindingCell,
    form: GoalForm,
    place: GoalPlace,
) -> Result<AfterGoal, NoMemory>
    requires goal { IsValueIn region.old.store goal }
    requires form { IsFormOf region.old.store goal form }
    requires control { IsControl control (name_of (meaning region.old.store goal)) (argument_count (meaning region.old.store goal)) }
    requires place { IsGoalPlace region.old place }
    ensures infers { IfOk result (Infers region.old region.new (meaning region.old.store goal) place) }
    ensures text { OnOk result (region.new.text ≡ region.old.text) }
    ensures floor { OnOk result (region.new.store.floor ≡ region.old.store.floor) }
{
    match control {
        Control::Succeed => Ok(AfterGoal::At(place.after)),
        Control::Fail => Ok(AfterGoal::Failed),
        Control::Cut => {
            cut(region, place);
            Ok(AfterGoal::At(place.after))
        }
        Control::Throw => {
            let ball = argument(region.store(), form.arguments, 0);
            throw_value(region, alloc, ball, place)
        }
        Control::Call => call_arguments(region, alloc, form.arguments, place),
        Control::Either => either_taken(region, alloc, form.arguments, place),
        Control::Then => then_taken(region, alloc, form.arguments, place),
        Control::Not => not_taken(region, alloc, form.arguments, place),
        Control::Once => once_taken(region, alloc, form.arguments, place),
        Control::Catch => catch_taken(region, form.arguments, place),
        Control::Findall => findall_taken(region, alloc, form.arguments, place),
    }
}
