//! Operators that are changed or looked at (ISO/IEC 13211-1, 8.14.3 and 8.14.4).
ghost use Rattle.std.specs.Prelude.{◌≡◌, not, ◌&&◌, pos, codes, is_some};
ghost use Rattle.au_model.specs.Terms.ErrorTerms.{domain_error, type_error};
ghost use Rattle.au_model.specs.Terms.TermTypes.{is_atom, is_variable};
ghost use Rattle.au_model.specs.Syntax.OperatorChanges.{error_if, is_priority};
ghost use Rattle.run_model.specs.Goals.OperatorGoals.{is_specifier};
ghost use Rattle.clause_compile.specs.declared.event.Effect.TheVariants.{CurrentOp as CurrentOpEffect, Op as OpEffect};
ghost use Rattle.effect_gate.specs.Refusals.{IsEffectDone, IsPassedOrError};

use crate::refusal::{Refusal, wrong_type, wrong_value};
use crate::world::{Applied, World};
use au_model::{DomainName, TypeName};
use au_term::{Cell, FlatTerm};
use op_table::{MAX_PRIORITY, OpKind, OpRefusal};

impl World {
    /// Puts operators into the table or takes them out of it.
    pub(crate) fn change_operators(
        &mut self,
        priority: &FlatTerm,
        specifier: &FlatTerm,
        names: &FlatTerm,
    ) -> Result<Applied, Refusal>
        ensures done { IsEffectDone (OpEffect priority.now specifier.now names.now) self.old self.new result }
        ensures statics { self.new.database ≡ self.old.database }
    {
        match self.ops.add(priority, specifier, names) {
            Ok(()) => Ok(Applied::Went),
            Err(OpRefusal::Fault(fault)) => Err(Refusal::Fault(fault)),
            Err(OpRefusal::NoMemory) => Err(Refusal::NoMemory),
        }
    }

    /// The operators of this moment.
    pub(crate) fn operators(
        &self,
        priority: &FlatTerm,
        specifier: &FlatTerm,
        name: &FlatTerm,
    ) -> Result<Applied, Refusal>
        ensures { IsEffectDone (CurrentOpEffect priority.now specifier.now name.now) self.now self.now result }
    {
        check_priority(priority)?;
        check_specifier(specifier)?;
        check_name(name)?;
        Ok(Applied::Rows(self.ops.rows()?))
    }
}

/// Refuses a term that is neither a variable nor a priority.
fn check_priority(term: &FlatTerm) -> Result<(), Refusal>
    ensures { IsPassedOrError (error_if (not (is_variable term.now) && not (is_priority term.now)) (domain_error (codes "operator_priority") term.now)) result }
{
    match term.top() {
        Cell::Var(_) => Ok(()),
        Cell::Int(value) if 0 <= *value && *value <= i64::from(MAX_PRIORITY) => Ok(()),
        _ => Err(wrong_value(DomainName::OperatorPriority, term)),
    }
}

/// Refuses a term that is neither a variable nor a specifier.
fn check_specifier(term: &FlatTerm) -> Result<(), Refusal>
    ensures { IsPassedOrError (error_if (not (is_variable term.now) && not (is_specifier term.now)) (domain_error (codes "operator_specifier") term.now)) result }
{
    match term.top() {
        Cell::Var(_) => Ok(()),
        Cell::Atom(name) if OpKind::named(name).is_some() => Ok(()),
        _ => Err(wrong_value(DomainName::OperatorSpecifier, term)),
    }
}

/// Refuses a term that is neither a variable nor an atom.
fn check_name(term: &FlatTerm) -> Result<(), Refusal>
    ensures { IsPassedOrError (error_if (not (is_variable term.now) && not (is_atom term.now)) (type_error (codes "atom") term.now)) result }
{
    match term.top() {
        Cell::Var(_) | Cell::Atom(_) => Ok(()),
        _ => Err(wrong_type(TypeName::Atom, term)),
    }
}
