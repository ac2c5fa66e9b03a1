//! The effects for which goals ask.
ghost use Rattle.std.specs.Prelude.{◌≡◌, ◌<◌, length, IfOk};
ghost use Rattle.au_term.specs.Term.{Term, end, more, term_at};
ghost use Rattle.clause_compile.specs.AtomNumbers.{name_at};
ghost use Rattle.cell_store.specs.StoreView.{IsValueIn, meaning, text_in};
ghost use Rattle.std_builtins.specs.WorldGoals.{IsWorldGoal, writing_name};
ghost use Rattle.region_control.specs.GoalForms.{argument_terms, AreArgumentsIn, IsFormOf};
ghost use Rattle.region_world.specs.AskedEffects.{AsksWorld, IsGoalOf};

use au_model::Style;
use au_term::{FlatTerm, NoMemory};
use binding_array::BindingCell;
use cell_store::Store;
use cell_store::arguments::Arguments;
use clause_compile::Effect;
use region_control::{GoalForm, argument};
use std_builtins::{WorldGoal, world_goal_of};

/// The effect for which a goal with a form asks.
pub(crate) fn effect_of(
    store: &Store,
    goal: BindingCell,
    form: GoalForm,
) -> Result<Effect, NoMemory>
    requires goal { IsValueIn store.now goal }
    requires form { IsFormOf store.now goal form }
    ensures { IfOk result (AsksWorld (meaning store.now goal)) }
{
    match world_goal_of(store.name(form.name).text(), form.arguments.count) {
        Some(asked) => named_effect(store, asked, form),
        None => Ok(Effect::Call(store.resolve(goal)?)),
    }
}

/// The effect for which a goal of the world asks.
fn named_effect(store: &Store, asked: WorldGoal, form: GoalForm) -> Result<Effect, NoMemory>
    requires name { form.name < length (text_in store.now).names }
    requires there { AreArgumentsIn store.now form.arguments }
    requires named { IsWorldGoal asked (name_at (text_in store.now).names form.name) form.arguments.count }
    ensures { IfOk result (λ e. (goal : BindingCell) → IsFormOf store.now goal form → AsksWorld (meaning store.now goal) e) }
{
    let given = form.arguments;
    match asked {
        WorldGoal::Write(style) => Ok(writing(style, resolved(store, given, 0)?)),
        WorldGoal::Nl => Ok(Effect::Nl),
        WorldGoal::PutChar => Ok(Effect::PutChar(resolved(store, given, 0)?)),
        WorldGoal::Asserta => Ok(Effect::Asserta(resolved(store, given, 0)?)),
        WorldGoal::Assertz => Ok(Effect::Assertz(resolved(store, given, 0)?)),
        WorldGoal::Retract => Ok(Effect::Retract(resolved(store, given, 0)?)),
        WorldGoal::Abolish => Ok(Effect::Abolish(resolved(store, given, 0)?)),
        WorldGoal::Clause => Ok(Effect::Clause(
            resolved(store, given, 0)?,
            resolved(store, given, 1)?,
        )),
        WorldGoal::Op => Ok(Effect::Op(
            resolved(store, given, 0)?,
            resolved(store, given, 1)?,
            resolved(store, given, 2)?,
        )),
        WorldGoal::CurrentOp => Ok(Effect::CurrentOp(
            resolved(store, given, 0)?,
            resolved(store, given, 1)?,
            resolved(store, given, 2)?,
        )),
        WorldGoal::Halt => Ok(Effect::Halt),
        WorldGoal::HaltWith => Ok(Effect::HaltWith(resolved(store, given, 0)?)),
    }
}

/// What an argument stands for.
fn resolved(store: &Store, arguments: Arguments, number: u32) -> Result<FlatTerm, NoMemory>
    requires there { AreArgumentsIn store.now arguments }
    requires some { number < arguments.count }
    ensures { IfOk result (λ t. t ≡ term_at number (argument_terms store.now arguments)) }
{
    store.resolve(argument(store, arguments, number))
}

/// The effect of a goal that writes a term.
fn writing(style: Style, term: FlatTerm) -> Effect
    ensures { (goal : Term) → IsGoalOf (writing_name style) (more term end) goal → AsksWorld goal result }
{
    match style {
        Style::Plain => Effect::Write(term),
        Style::Quoted => Effect::Writeq(term),
        Style::Canonical => Effect::WriteCanonical(term),
    }
}
