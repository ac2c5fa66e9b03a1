//! Clauses as terms: a head and a body (ISO/IEC 13211-1, 7.6).
ghost use Rattle.std.specs.Prelude.{◌≡◌, ◌∷◌, ◌++◌, [], IfOk};
ghost use Rattle.std.specs.Arc.{arc_value};
ghost use Rattle.au_model.specs.Syntax.OperatorChanges.{error_if, first_error};
ghost use Rattle.au_model.specs.Terms.ErrorTerms.{type_error};
ghost use Rattle.au_model.specs.Terms.TermTypes.{is_integer};
ghost use Rattle.std.specs.Prelude.{codes};
ghost use Rattle.run_model.specs.Goals.DatabaseGoals.{head_in, body_in, head_errors, no_body_error};
ghost use Rattle.effect_gate.specs.Refusals.{IsKeptClause, IsPassedOrError, IsValueOrError, has_body};

use crate::refusal::{Refusal, wrong_type};
use au_model::build::atom;
use au_model::{Fault, TypeName};
use au_term::{Cell, FlatTerm, NoMemory};
use clause_compile::{Clause, ClauseRefusal, Part, compile};
use std::alloc::Global;
use std::sync::Arc;

/// Whether a term is a clause with a body.
fn has_body(clause: &FlatTerm) -> bool
    ensures { result ≡ has_body clause.now }
{
    match clause.top() {
        Cell::Functor(name, arity) => *arity == 2 && name.is_text(":-"),
        _ => false,
    }
}

/// The head of a clause.
pub fn head_of(alloc: Global, clause: &FlatTerm) -> Result<FlatTerm, NoMemory>
    ensures { IfOk result (λ head. head ≡ head_in clause.now) }
{
    if has_body(clause) {
        return FlatTerm::from_slice(alloc, clause.arg(0));
    }
    clause.copy()
}

/// The body of a clause: `true` where it has none.
pub fn body_of(alloc: Global, clause: &FlatTerm) -> Result<FlatTerm, NoMemory>
    ensures { IfOk result (λ body. body ≡ body_in clause.now) }
{
    if has_body(clause) {
        return FlatTerm::from_slice(alloc, clause.arg(1));
    }
    atom(alloc, "true")
}

/// Refuses a head that is a variable or an integer.
pub(crate) fn check_head(head: &FlatTerm) -> Result<(), Refusal>
    ensures { IsPassedOrError (first_error (head_errors head.now)) result }
{
    match head.top() {
        Cell::Var(_) => Err(Refusal::Fault(Fault::Instantiation)),
        Cell::Int(_) => Err(wrong_type(TypeName::Callable, head)),
        _ => Ok(()),
    }
}

/// Refuses a body that is an integer.
pub(crate) fn check_body(body: &FlatTerm) -> Result<(), Refusal>
    ensures { IsPassedOrError (error_if (is_integer body.now) (type_error (codes "callable") body.now)) result }
{
    match body.top() {
        Cell::Int(_) => Err(wrong_type(TypeName::Callable, body)),
        _ => Ok(()),
    }
}

/// The clause of a head and a body.
pub(crate) fn clause_of(
    alloc: Global,
    head: &FlatTerm,
    body: &FlatTerm,
) -> Result<Arc<Clause>, Refusal>
    ensures { IsValueOrError (first_error (head_errors head.now ++ no_body_error body.now ∷ [])) (λ clause. IsKeptClause head.now body.now (arc_value clause)) result }
{
    match compile(alloc, head, body) {
        Ok(clause) => Ok(clause),
        Err(ClauseRefusal::NoHead) => Err(Refusal::Fault(Fault::Instantiation)),
        Err(ClauseRefusal::NotCallable(Part::Head)) => Err(wrong_type(TypeName::Callable, head)),
        Err(ClauseRefusal::NotCallable(Part::Body)) => Err(wrong_type(TypeName::Callable, body)),
        Err(ClauseRefusal::NoMemory) => Err(Refusal::NoMemory),
    }
}
