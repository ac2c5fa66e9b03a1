//! Goals of the world are asked, and told what they come to.
ghost use Rattle.std.specs.Prelude.{◌≡◌, IfOk};
ghost use Rattle.run_model.specs.Goals.Outcomes.{Reply};
ghost use Rattle.run_model.specs.Goals.Worlds.{static_among};
ghost use Rattle.cell_store.specs.StoreView.{IsValueIn, meaning};
ghost use Rattle.effect_gate.specs.Effects.{IsReplied, statics_of, world_meant};
ghost use Rattle.region_control.specs.GoalForms.{IsFormOf};
ghost use Rattle.region_world.specs.AskedEffects.{AsksWorld, AsksWorldIn};
ghost use Rattle.region_world.specs.WorldAnswers.{AnswersWorldGoal, HasReply, TellsReply};

use crate::effect::effect_of;
use crate::found::{found_solutions, matching_of};
use crate::rows::{asked_of, row_solutions};
use au_term::{FlatTerm, NoMemory};
use binding_array::BindingCell;
use clause_compile::Effect;
use effect_gate::{Applied, World, ball};
use region_control::{GoalForm, form_of};
use region_split::{Region, Solutions};
use std::alloc::Global;

/// What a goal of the world comes to.
#[derive(Drop)]
pub enum WorldAnswer {
    /// It holds, once.
    Went,
    /// It has no solution.
    Fails,
    /// It raises this ball.
    Raised(FlatTerm),
    /// The run ends with a status.
    Halted(u8),
    /// These are tried, in their order.
    Solutions(Solutions),
}

/// Applies what a goal asks the world for to the world, and tells what the goal comes to.
pub fn ask_world(
    region: &Region,
    alloc: Global,
    goal: BindingCell,
    world: &mut World,
) -> Result<WorldAnswer, NoMemory>
    requires goal { IsValueIn region.now.store goal }
    requires asks { AsksWorldIn region.now (meaning region.now.store goal) }
    requires statics { statics_of world.old ≡ static_among region.now.text.clauses }
    ensures answers { IfOk result (AnswersWorldGoal region.now (meaning region.now.store goal) (world_meant world.old) (world_meant world.new)) }
    ensures statics { world.new.database.statics ≡ world.old.database.statics }
{
    let Some(form) = form_of(region.store(), goal) else {
        unreachable!();
    };
    let effect = effect_of(region.store(), goal, form)?;
    let applied = world.apply(alloc, &effect)?;
    applied_told(region, alloc, goal, form, &effect, applied)
}

/// What a goal comes to whose effect was applied to the world.
fn applied_told(
    region: &Region,
    alloc: Global,
    goal: BindingCell,
    form: GoalForm,
    effect: &Effect,
    applied: Applied,
) -> Result<WorldAnswer, NoMemory>
    requires goal { IsValueIn region.now.store goal }
    requires form { IsFormOf region.now.store goal form }
    requires asks { AsksWorld (meaning region.now.store goal) effect.now }
    requires replied { HasReply effect.now region.now.store.now.next applied }
    ensures { IfOk result (λ answer. (reply : Reply) → IsReplied effect.now region.now.store.now.next reply applied → TellsReply region.now reply answer) }
{
    match applied {
        Applied::Went => Ok(WorldAnswer::Went),
        Applied::Raise(fault) => Ok(WorldAnswer::Raised(ball(alloc, effect, &fault)?)),
        Applied::Clauses(found) => {
            let matching = matching_of(alloc, region.store(), effect, goal, form)?;
            let base = region.store().next();
            let solutions = found_solutions(alloc, &found, &matching, base)?;
            Ok(WorldAnswer::Solutions(solutions))
        }
        Applied::Fails => Ok(WorldAnswer::Fails),
        Applied::Rows(rows) => {
            let asked = asked_of(region.store(), form.arguments);
            let solutions = row_solutions(alloc, asked, &rows)?;
            Ok(WorldAnswer::Solutions(solutions))
        }
        Applied::Halt(status) => Ok(WorldAnswer::Halted(status)),
    }
}
