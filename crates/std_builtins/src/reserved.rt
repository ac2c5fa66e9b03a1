//! Names that no clause may define.
ghost use Rattle.std.specs.Prelude.{◌≡◌, ◌==◌, ◌&&◌, codes};
ghost use Rattle.au_model.specs.Terms.Forms.{same_name};
ghost use Rattle.std.specs.Str.{chars};
ghost use Rattle.run_model.specs.Goals.Worlds.{is_reserved};

use crate::control::is_control;
use crate::table::is_builtin;
use crate::world_goals::is_world_goal;
use au_term::is_text;

/// Whether a name with so many arguments is that of a conjunction, a control construct, a built-in predicate
/// or a goal of the world.
pub fn is_reserved(name: &str, arity: u32) -> bool
    ensures { result ≡ is_reserved (chars name.now) arity }
{
    is_conjunction(name, arity)
        || is_control(name, arity)
        || is_builtin(name, arity)
        || is_world_goal(name, arity)
}

/// Whether a name with so many arguments is that of a conjunction.
fn is_conjunction(name: &str, arity: u32) -> bool
    ensures { result ≡ (same_name (chars name.now) (codes ",") && arity == 2) }
{
    arity == 2 && is_text(name, ",")
}
