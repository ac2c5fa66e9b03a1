//! Clauses that are looked up: for a call (ISO/IEC 13211-1, 7.7.7), for a look at them (8.8.1) and for their removal
//! (8.9.3).
ghost use Rattle.std.specs.Prelude.{◌≡◌, IfOk};
ghost use Rattle.std.specs.Option.{option_map};
ghost use Rattle.dyn_clauses.specs.DatabaseView.{shown_clauses};
ghost use Rattle.clause_compile.specs.declared.event.Effect.TheVariants.{Call as CallEffect, Clause as ClauseEffect, Remove as RemoveEffect, Retract as RetractEffect};
ghost use Rattle.effect_gate.specs.Refusals.{AreLookedUp, IsEffectDone, may_unify_with};

use crate::heads::{check_body, check_head, head_of};
use crate::refusal::Refusal;
use crate::statics::procedure_of;
use crate::world::{Applied, World};
use au_model::{Fault, PermissionName};
use au_term::{FlatTerm, NoMemory};
use clause_compile::{Clause, ClauseId};
use std::alloc::Global;
use std::sync::Arc;

impl World {
    /// The clauses with which a head may unify; none where its procedure is unknown.
    fn candidates(
        &self,
        alloc: Global,
        head: &FlatTerm,
    ) -> Result<Option<Vec<(ClauseId, Arc<Clause>)>>, NoMemory>
        ensures { IfOk result (λ found. option_map shown_clauses found ≡ may_unify_with self.now.database.kept head.now) }
    {
        let procedure = procedure_of(alloc, head)?;
        self.database.candidates(&procedure, head)
    }

    /// The same, where an unknown procedure has no solution.
    fn look_up(&self, alloc: Global, head: &FlatTerm) -> Result<Applied, NoMemory>
        ensures { IfOk result (AreLookedUp (may_unify_with self.now.database.kept head.now)) }
    {
        match self.candidates(alloc, head)? {
            Some(found) => Ok(Applied::Clauses(found)),
            None => Ok(Applied::Fails),
        }
    }

    /// The clauses that a call of a procedure tries.
    pub(crate) fn call(&self, alloc: Global, goal: &FlatTerm) -> Result<Applied, Refusal>
        ensures { IsEffectDone (CallEffect goal.now) self.now self.now result }
    {
        match self.candidates(alloc, goal)? {
            Some(found) => Ok(Applied::Clauses(found)),
            None => {
                let procedure = procedure_of(alloc, goal)?;
                Err(Refusal::Fault(Fault::Existence(procedure.name, procedure.arity)))
            }
        }
    }

    /// The clauses at which clause/2 looks.
    pub(crate) fn clauses(
        &self,
        alloc: Global,
        head: &FlatTerm,
        body: &FlatTerm,
    ) -> Result<Applied, Refusal>
        ensures { IsEffectDone (ClauseEffect head.now body.now) self.now self.now result }
    {
        check_head(head)?;
        check_body(body)?;
        self.check_procedure(alloc, head, PermissionName::AccessPrivateProcedure)?;
        Ok(self.look_up(alloc, head)?)
    }

    /// The clauses of which retract/1 removes those that unify.
    pub(crate) fn retract(&self, alloc: Global, clause: &FlatTerm) -> Result<Applied, Refusal>
        ensures { IsEffectDone (RetractEffect clause.now) self.now self.now result }
    {
        let head = head_of(alloc, clause)?;
        check_head(&head)?;
        self.check_procedure(alloc, &head, PermissionName::ModifyStaticProcedure)?;
        Ok(self.look_up(alloc, &head)?)
    }

    /// Removes a clause, where it is still there.
    pub(crate) fn remove(&mut self, id: ClauseId) -> Result<Applied, Refusal>
        ensures done { IsEffectDone (RemoveEffect id) self.old self.new result }
        ensures statics { self.new.database.statics ≡ self.old.database.statics }
    {
        match self.database.remove(id) {
            Ok(()) => Ok(Applied::Went),
            Err(_gone) => Ok(Applied::Fails),
        }
    }
}
