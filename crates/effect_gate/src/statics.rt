//! Procedures that no goal changes.
ghost use Rattle.std.specs.Prelude.{◌≡◌, IfOk};
ghost use Rattle.au_term.specs.Term.{argument_count};
ghost use Rattle.au_model.specs.Terms.Forms.{name_of};
ghost use Rattle.au_model.specs.Terms.Faults.{permission_error_of};
ghost use Rattle.run_model.specs.Goals.DatabaseGoals.{static_error};
ghost use Rattle.effect_gate.specs.Effects.{statics_of};
ghost use Rattle.effect_gate.specs.Refusals.{IsPassedOrError};

use crate::refusal::Refusal;
use crate::world::World;
use au_model::build::indicator;
use au_model::{Fault, PermissionName};
use au_term::{Atom, Cell, FlatTerm, NoMemory};
use dyn_clauses::Indicator;
use std::alloc::Global;
use std_builtins::is_reserved;

impl World {
    /// Whether no goal changes a procedure.
    pub(crate) fn is_static(&self, procedure: &Indicator) -> bool
        ensures { result ≡ statics_of self.now procedure.now.name procedure.now.arity }
    {
        is_reserved(procedure.name.text(), procedure.arity) || self.database.is_static(procedure)
    }

    /// Refuses a head whose procedure is static.
    pub(crate) fn check_procedure(
        &self,
        alloc: Global,
        head: &FlatTerm,
        permission: PermissionName,
    ) -> Result<(), Refusal>
        ensures { IsPassedOrError (static_error (statics_of self.now) (permission_error_of permission) head.now) result }
    {
        let procedure = procedure_of(alloc, head)?;
        if self.is_static(&procedure) {
            let culprit = indicator(alloc, &procedure.name, procedure.arity)?;
            return Err(Refusal::Fault(Fault::Permission(permission, culprit)));
        }
        Ok(())
    }
}

/// The name of a head and how many arguments it has.
pub(crate) fn procedure_of(alloc: Global, head: &FlatTerm) -> Result<Indicator, NoMemory>
    ensures name { IfOk result (λ procedure. procedure.name ≡ name_of head.now) }
    ensures arity { IfOk result (λ procedure. procedure.arity ≡ argument_count head.now) }
{
    let name = match head.top() {
        Cell::Atom(name) | Cell::Functor(name, _) => name.share()?,
        _ => Atom::ascii(alloc, "")?,
    };
    Ok(Indicator {
        name,
        arity: head.arity(),
    })
}
