//! Procedures that become unknown (ISO/IEC 13211-1, 8.9.4).
ghost use Rattle.std.specs.Prelude.{◌≡◌, false};
ghost use Rattle.clause_compile.specs.declared.event.Effect.TheVariants.{Abolish as AbolishEffect};
ghost use Rattle.effect_gate.specs.Refusals.{IsEffectDone, IsErrorRefusal, IsValueOrError};
ghost use Rattle.effect_gate.specs.Indicators.{AreParts, IsProcedureOf, parts_error, shape_error};
ghost use Rattle.au_model.specs.Terms.TermTypes.{is_variable};
ghost use Rattle.run_model.specs.Goals.DatabaseGoals.{is_indicator};

use crate::refusal::{Refusal, wrong_type, wrong_value};
use crate::world::{Applied, World};
use au_model::{DomainName, Fault, LimitName, PermissionName, TypeName};
use au_term::{Cell, FlatTerm};
use dyn_clauses::Indicator;
use std::alloc::Global;

/// The greatest number of arguments.
const MAX_ARITY: i64 = 65_535;

impl World {
    /// Takes a procedure away with all its clauses.
    pub(crate) fn abolish(&mut self, alloc: Global, term: &FlatTerm) -> Result<Applied, Refusal>
        ensures done { IsEffectDone (AbolishEffect term.now) self.old self.new result }
        ensures statics { self.new.database.statics ≡ self.old.database.statics }
    {
        let (name, arity) = parts(alloc, term)?;
        let procedure = procedure(&name, &arity)?;
        if self.is_static(&procedure) {
            let fault = Fault::Permission(PermissionName::ModifyStaticProcedure, term.copy()?);
            return Err(Refusal::Fault(fault));
        }
        match self.database.abolish(&procedure) {
            Ok(()) => Ok(Applied::Went),
            Err(_static) => unreachable!(),
        }
    }
}

/// The name and the number of arguments in `Name/Arity`, of which neither is a variable.
fn parts(alloc: Global, term: &FlatTerm) -> Result<(FlatTerm, FlatTerm), Refusal>
    ensures { IsValueOrError (shape_error term.now) (AreParts term.now) result }
{
    if !is_indicator(term) {
        return Err(no_indicator(term));
    }
    let name = FlatTerm::from_slice(alloc, term.arg(0))?;
    let arity = FlatTerm::from_slice(alloc, term.arg(1))?;
    if is_variable(&name) || is_variable(&arity) {
        return Err(Refusal::Fault(Fault::Instantiation));
    }
    Ok((name, arity))
}

/// Whether a term is `Name/Arity`.
fn is_indicator(term: &FlatTerm) -> bool
    ensures { result ≡ is_indicator term.now }
{
    match term.top() {
        Cell::Functor(name, arity) => *arity == 2 && name.is_text("/"),
        _ => false,
    }
}

fn is_variable(term: &FlatTerm) -> bool
    ensures { result ≡ is_variable term.now }
{
    matches!(term.top(), Cell::Var(_))
}

/// The error of a term that is not `Name/Arity`.
fn no_indicator(term: &FlatTerm) -> Refusal
    requires { is_indicator term.now ≡ false }
    ensures { IsErrorRefusal (shape_error term.now) result }
{
    match term.top() {
        Cell::Var(_) => Refusal::Fault(Fault::Instantiation),
        _ => wrong_type(TypeName::PredicateIndicator, term),
    }
}

/// The procedure of a name and a number of arguments.
fn procedure(name: &FlatTerm, arity: &FlatTerm) -> Result<Indicator, Refusal>
    ensures { IsValueOrError (parts_error name.now arity.now) (IsProcedureOf name.now arity.now) result }
{
    let Cell::Atom(text) = name.top() else {
        return Err(wrong_type(TypeName::Atom, name));
    };
    let Cell::Int(value) = arity.top() else {
        return Err(wrong_type(TypeName::Integer, arity));
    };
    if *value < 0 {
        return Err(wrong_value(DomainName::NotLessThanZero, arity));
    }
    if *value > MAX_ARITY {
        let fault = Fault::Representation(LimitName::MaxArity);
        return Err(Refusal::Fault(fault));
    }
    Ok(Indicator {
        name: text.share()?,
        arity: *value as u32,
    })
}
