//! Arguments by number (ISO/IEC 13211-1, 8.5.2).
ghost use Rattle.std.specs.Prelude.{Ok, []};
ghost use Rattle.au_term.specs.Term.{arguments};
ghost use Rattle.run_model.specs.Goals.TermParts.{argument_answer, argument_of, numbered_argument};
ghost use Rattle.std_builtins.specs.Answers.{IsAnswer};

use crate::answer::{BuiltinRefusal, Solution, equal, failed};
use crate::integers::integer;
use au_model::{DomainName, Fault, TypeName};
use au_term::{Cell, FlatTerm};
use std::alloc::Global;

/// What `arg(N, T, X)` answers.
pub(crate) fn argument(
    alloc: Global,
    number: &FlatTerm,
    term: &FlatTerm,
    found: &FlatTerm,
) -> Result<Vec<Solution>, BuiltinRefusal>
    ensures { IsAnswer (argument_answer number.now term.now found.now) result }
{
    match (number.top(), term.top()) {
        (Cell::Var(_), _) => failed(Fault::Instantiation),
        (_, Cell::Var(_)) => failed(Fault::Instantiation),
        (Cell::Int(number), Cell::Functor(_, _)) => numbered(alloc, *number, term, found),
        (Cell::Int(_), _) => failed(Fault::WrongType(TypeName::CompoundTerm, term.copy()?)),
        (_, _) => failed(Fault::WrongType(TypeName::Integer, number.copy()?)),
    }
}

/// What it answers for a number and a compound.
fn numbered(
    alloc: Global,
    number: i64,
    term: &FlatTerm,
    found: &FlatTerm,
) -> Result<Vec<Solution>, BuiltinRefusal>
    ensures { IsAnswer (argument_of number (arguments term.now) found.now) result }
{
    if number < 0 {
        let culprit = integer(alloc, number)?;
        return failed(Fault::Domain(DomainName::NotLessThanZero, culprit));
    }
    counted(alloc, number as u64, term, found)
}

/// What it answers for a number from 0 on.
fn counted(
    alloc: Global,
    number: u64,
    term: &FlatTerm,
    found: &FlatTerm,
) -> Result<Vec<Solution>, BuiltinRefusal>
    ensures { IsAnswer (numbered_argument number (arguments term.now) found.now) result }
{
    if number == 0 || number > u64::from(term.arity()) {
        return Ok(Vec::new(alloc));
    }
    let argument = FlatTerm::from_slice(alloc, term.arg(number as u32 - 1))?;
    equal(alloc, found.copy()?, argument)
}
