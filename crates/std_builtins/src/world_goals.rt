//! The goals that look at the world or change it, by name and number of arguments.
ghost use Rattle.std.specs.Prelude.{◌≡◌, false, MatchOption, map};
ghost use Rattle.std.specs.Str.{chars};
ghost use Rattle.run_model.specs.Goals.Worlds.{is_world_goal};
ghost use Rattle.std_builtins.specs.Rows.{kind_in};
ghost use Rattle.std_builtins.specs.WorldGoals.{IsWorldGoal};

use crate::table::is_row;
use au_model::Style;

/// A goal that looks at the world or changes it (ISO/IEC 13211-1, 8.8.1, 8.9, 8.12.3, 8.14.2 to 8.14.4, and 8.17.3).
#[derive(Clone, Copy, Debug, PartialEq, Eq)]
pub enum WorldGoal {
    /// `write/1`, `writeq/1` or `write_canonical/1`.
    Write(Style),
    Nl,
    PutChar,
    Asserta,
    Assertz,
    Retract,
    Abolish,
    Clause,
    Op,
    CurrentOp,
    /// `halt/0`.
    Halt,
    /// `halt/1`.
    HaltWith,
}

/// Each goal with its name and number of arguments.
const WORLD_GOALS: [(&str, u32, WorldGoal); 14] = [
    ("write", 1, WorldGoal::Write(Style::Plain)),
    ("writeq", 1, WorldGoal::Write(Style::Quoted)),
    ("write_canonical", 1, WorldGoal::Write(Style::Canonical)),
    ("nl", 0, WorldGoal::Nl),
    ("put_char", 1, WorldGoal::PutChar),
    ("asserta", 1, WorldGoal::Asserta),
    ("assertz", 1, WorldGoal::Assertz),
    ("retract", 1, WorldGoal::Retract),
    ("abolish", 1, WorldGoal::Abolish),
    ("clause", 2, WorldGoal::Clause),
    ("op", 3, WorldGoal::Op),
    ("current_op", 3, WorldGoal::CurrentOp),
    ("halt", 0, WorldGoal::Halt),
    ("halt", 1, WorldGoal::HaltWith),
];

/// The goal of this name and number of arguments, if there is one.
pub fn world_goal_of(name: &str, arity: u32) -> Option<WorldGoal>
    ensures { MatchOption result (is_world_goal (chars name.now) arity ≡ false) (λ goal. IsWorldGoal goal (chars name.now) arity) }
{
    world_goal_among(&WORLD_GOALS, name, arity)
}

/// The goal of the first of these rows that has this name and number of arguments.
fn world_goal_among(rows: &[(&str, u32, WorldGoal)], name: &str, arity: u32) -> Option<WorldGoal>
    ensures { result ≡ kind_in (chars name.now) arity (map (λ row. (chars row.0.now, row.1, row.2)) rows.now) }
{
    for row in rows {
        if is_row(row.0, row.1, name, arity) {
            return Some(row.2);
        }
    }
    None
}

/// Whether a name with so many arguments is that of a goal of the world.
pub fn is_world_goal(name: &str, arity: u32) -> bool
    ensures { result ≡ is_world_goal (chars name.now) arity }
{
    world_goal_of(name, arity).is_some()
}
