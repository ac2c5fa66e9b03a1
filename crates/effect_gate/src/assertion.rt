//! Clauses that are added (ISO/IEC 13211-1, 8.9.1 and 8.9.2).
ghost use Rattle.std.specs.Prelude.{◌≡◌, false, OnOk};
ghost use Rattle.std.specs.Arc.{arc_value};
ghost use Rattle.dyn_clauses.specs.DatabaseView.{is_static};
ghost use Rattle.dyn_clauses.specs.ClauseEnds.{indicator_of};
ghost use Rattle.effect_gate.specs.Refusals.{IsEffectDone, adding, assertion};

use crate::heads::{body_of, clause_of, head_of};
use crate::refusal::Refusal;
use crate::world::{Applied, World};
use au_model::PermissionName;
use au_term::{FlatTerm, NoMemory};
use clause_compile::Clause;
use dyn_clauses::{DataRefusal, Database};
use std::alloc::Global;
use std::sync::Arc;

/// The end of a procedure at which a clause is put.
#[derive(Clone, Copy)]
pub(crate) enum End {
    First,
    Last,
}

impl World {
    /// Adds a clause to its procedure.
    pub(crate) fn assert(
        &mut self,
        alloc: Global,
        clause: &FlatTerm,
        end: End,
    ) -> Result<Applied, Refusal>
        ensures done { IsEffectDone (assertion end clause.now) self.old self.new result }
        ensures statics { self.new.database.statics ≡ self.old.database.statics }
    {
        let head = head_of(alloc, clause)?;
        let kept = clause_of(alloc, &head, &body_of(alloc, clause)?)?;
        self.check_procedure(alloc, &head, PermissionName::ModifyStaticProcedure)?;
        add(&mut self.database, kept, end)?;
        Ok(Applied::Went)
    }
}

/// Puts a clause at an end of its procedure.
fn add(database: &mut Database, clause: Arc<Clause>, end: End) -> Result<(), NoMemory>
    requires { is_static database.old.statics (indicator_of (arc_value clause)) ≡ false }
    ensures ok { OnOk result (database.new ≡ record database.old { kept = adding end database.old.kept (arc_value clause) }) }
    ensures statics { database.new.statics ≡ database.old.statics }
{
    let added = match end {
        End::First => database.add_first(clause),
        End::Last => database.add_last(clause),
    };
    match added {
        Ok(_id) => Ok(()),
        Err(DataRefusal::NoMemory) => Err(NoMemory),
        Err(DataRefusal::Static) => unreachable!(),
    }
}
