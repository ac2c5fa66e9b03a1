//! Removals of clauses, which come as an alternative of a retract goes on (ISO/IEC 13211-1, 8.9.3).
ghost use Rattle.std.specs.Prelude.{◌≡◌, IfOk};
ghost use Rattle.effect_gate.specs.Effects.{world_meant};
ghost use Rattle.region_world.specs.WorldGoals.{RemovesClause};

use au_term::NoMemory;
use clause_compile::{ClauseId, Effect};
use effect_gate::{Applied, World};
use std::alloc::Global;

/// Removes a clause by its number, and says whether it was still there.
pub fn removes_clause(alloc: Global, number: u64, world: &mut World) -> Result<bool, NoMemory>
    ensures removes { IfOk result (RemovesClause number (world_meant world.old) (world_meant world.new)) }
    ensures statics { world.new.database.statics ≡ world.old.database.statics }
{
    match world.apply(alloc, &Effect::Remove(ClauseId(number)))? {
        Applied::Went => Ok(true),
        Applied::Fails => Ok(false),
        _ => unreachable!(),
    }
}
