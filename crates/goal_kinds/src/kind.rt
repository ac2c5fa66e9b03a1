//! The kinds of goals.
ghost use Rattle.std.specs.Str.{chars};
ghost use Rattle.goal_kinds.specs.Kinds.{IsKindOf};

use std_builtins::{Builtin, Control, WorldGoal, builtin_of, control_of, world_goal_of};

/// What a goal is, by its name and number of arguments.
#[derive(Clone, Copy)]
pub enum GoalKind {
    Control(Control),
    Builtin(Builtin),
    World(WorldGoal),
    /// It calls a procedure.
    Call,
}

/// What goals of a name and number of arguments are, by the characters of the name.
pub fn kind_of_name(name: &str, arity: u32) -> GoalKind
    ensures { IsKindOf (chars name.now) arity result }
{
    if let Some(control) = control_of(name, arity) {
        return GoalKind::Control(control);
    }
    if let Some(builtin) = builtin_of(name, arity) {
        return GoalKind::Builtin(builtin);
    }
    match world_goal_of(name, arity) {
        Some(goal) => GoalKind::World(goal),
        None => GoalKind::Call,
    }
}
