//! Terms by name and number of arguments (ISO/IEC 13211-1, 8.5.1).
ghost use Rattle.std.specs.Prelude.{◌≡◌, ◌+◌, ◌-◌, ◌^◌, ◌≤◌, ◌<◌, [], ◌∷◌, pos, IfOk};
ghost use Rattle.au_term.specs.Term.{IntTerm, Compound, argument_count};
ghost use Rattle.run_model.specs.Goals.BuiltinAnswers.{one_solution};
ghost use Rattle.run_model.specs.Goals.TermParts.{functor_answer, functor_built, functor_of_count, functor_name, made_term, new_variables};
ghost use Rattle.std_builtins.specs.Answers.{IsAnswer};

use crate::answer::{BuiltinRefusal, Solution, both_equal, equal, equal_with, failed};
use crate::integers::integer;
use au_model::build::single;
use au_model::{DomainName, Fault, LimitName, TypeName};
use au_term::{Atom, Cell, FlatTerm, MAX_ARITY, NoMemory, TermBuilder, VarNo};
use std::alloc::Global;

/// What `functor(T, Name, Arity)` answers.
pub(crate) fn functor(
    alloc: Global,
    term: &FlatTerm,
    name: &FlatTerm,
    arity: &FlatTerm,
    next: VarNo,
) -> Result<Vec<Solution>, BuiltinRefusal>
    ensures { IsAnswer (functor_answer term.now name.now arity.now next) result }
{
    match term.top() {
        Cell::Var(_) => functor_built(alloc, term, name, arity, next),
        _ => functor_read(alloc, term, name, arity),
    }
}

/// What it answers for a term that is no variable.
fn functor_read(
    alloc: Global,
    term: &FlatTerm,
    name: &FlatTerm,
    arity: &FlatTerm,
) -> Result<Vec<Solution>, BuiltinRefusal>
    ensures { IsAnswer (one_solution ((name.now, functor_name term.now) ∷ (arity.now, IntTerm (pos (argument_count term.now))) ∷ [])) result }
{
    let found = functor_name(alloc, term)?;
    let count = integer(alloc, i64::from(term.arity()))?;
    both_equal(alloc, (name.copy()?, found), (arity.copy()?, count))
}

/// The name of a compound, or an atomic term itself.
fn functor_name(alloc: Global, term: &FlatTerm) -> Result<FlatTerm, NoMemory>
    ensures { IfOk result (λ t. t ≡ functor_name term.now) }
{
    match term.top() {
        Cell::Functor(name, _) => single(alloc, Cell::Atom(name.share()?)),
        _ => term.copy(),
    }
}

/// What it answers for a variable.
fn functor_built(
    alloc: Global,
    term: &FlatTerm,
    name: &FlatTerm,
    arity: &FlatTerm,
    next: VarNo,
) -> Result<Vec<Solution>, BuiltinRefusal>
    ensures { IsAnswer (functor_built term.now next name.now arity.now) result }
{
    match (name.top(), arity.top()) {
        (Cell::Var(_), _) => failed(Fault::Instantiation),
        (_, Cell::Var(_)) => failed(Fault::Instantiation),
        (Cell::Functor(_, _), _) => failed(Fault::WrongType(TypeName::Atomic, name.copy()?)),
        (_, Cell::Int(count)) => functor_of_count(alloc, term, name, *count, next),
        (_, _) => failed(Fault::WrongType(TypeName::Integer, arity.copy()?)),
    }
}

/// What it answers for an atomic name and a number of arguments.
fn functor_of_count(
    alloc: Global,
    term: &FlatTerm,
    name: &FlatTerm,
    count: i64,
    next: VarNo,
) -> Result<Vec<Solution>, BuiltinRefusal>
    ensures { IsAnswer (functor_of_count term.now next name.now count) result }
{
    if count < 0 {
        let culprit = integer(alloc, count)?;
        return failed(Fault::Domain(DomainName::NotLessThanZero, culprit));
    }
    if count > MAX_ARITY as i64 {
        return failed(Fault::Representation(LimitName::MaxArity));
    }
    made_term(alloc, term, name, count as u32, next)
}

/// What it answers for a number of arguments that a term may have.
fn made_term(
    alloc: Global,
    term: &FlatTerm,
    name: &FlatTerm,
    count: u32,
    next: VarNo,
) -> Result<Vec<Solution>, BuiltinRefusal>
    requires { count ≤ 65535 }
    ensures { IsAnswer (made_term term.now next name.now count) result }
{
    if count == 0 {
        return equal(alloc, term.copy()?, name.copy()?);
    }
    match name.top() {
        Cell::Atom(functor) => {
            let made = compound_of_variables(alloc, functor.share()?, count, next)?;
            equal_with(alloc, term.copy()?, made, u64::from(count))
        }
        _ => failed(Fault::WrongType(TypeName::Atom, name.copy()?)),
    }
}

/// A compound of new variables.
fn compound_of_variables(
    alloc: Global,
    name: Atom,
    count: u32,
    next: VarNo,
) -> Result<FlatTerm, NoMemory>
    requires some { 0 < count }
    requires most { count ≤ 65535 }
    ensures { IfOk result (λ t. t ≡ Compound name (new_variables next count)) }
{
    let mut builder = TermBuilder::new(alloc);
    builder.push(Cell::Functor(name, count))?;
    for i in 0..count {
        builder.push(Cell::Var(variable_after(next, i)?))?;
    }
    Ok(builder.finish())
}

/// The number of a new variable; past the greatest number there is no memory for it.
fn variable_after(next: VarNo, i: u32) -> Result<VarNo, NoMemory>
    ensures sum { IfOk result (λ n. n ≡ next + i) }
    ensures sound { IfOk result (λ n. n < 2 ^ 64 - 1) }
{
    match next.checked_add(u64::from(i)) {
        Some(sum) if sum < VarNo::MAX => Ok(sum),
        _ => Err(NoMemory),
    }
}
