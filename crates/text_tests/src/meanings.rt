//! What no clause says: that calls succeed.
use crate::common::{expect, hold};
use au_model::build::{atom, binary, indicator, single, unary};
use au_model::copies::copy_term;
use au_model::{Fault, TypeName};
use au_term::{Atom, Cell, FlatTerm, NoMemory};
use std::alloc::Global;
use std::test::Fail;

/// `error(E, (is)/2)`.
fn error_of_is(alloc: Global, error: &FlatTerm) -> Result<FlatTerm, NoMemory> {
    let name = Atom::new(alloc, "is")?;
    binary(alloc, "error", error, &indicator(alloc, &name, 2)?)
}

fn is_error(alloc: Global, fault: &Fault, error: &FlatTerm) -> Result<bool, NoMemory> {
    let term = fault.term(alloc, &Atom::new(alloc, "is")?, 2)?;
    Ok(term.cells() == error_of_is(alloc, error)?.cells())
}

/// Whether it is the error that a term is not callable.
fn is_type_error(alloc: Global, culprit: FlatTerm) -> Result<bool, NoMemory> {
    let error = binary(alloc, "type_error", &atom(alloc, "callable")?, &culprit)?;
    is_error(
        alloc,
        &Fault::WrongType(TypeName::Callable, culprit),
        &error,
    )
}

#[test]
fn error_terms(rt: HostRuntime) -> Result<(), Fail> {
    let alloc = rt.alloc();
    let plain = atom(alloc, "instantiation_error")?;
    hold(
        &rt,
        is_error(alloc, &Fault::Instantiation, &plain)?,
        "plain",
    );
    let culprit = unary(alloc, "f", &plain)?;
    hold(&rt, is_type_error(alloc, culprit)?, "type");
    Ok(())
}

/// `f(X, g(Y, X))`.
fn pairs(alloc: Global, x: u64, y: u64) -> Result<FlatTerm, NoMemory> {
    let (x, y) = (variable(alloc, x)?, variable(alloc, y)?);
    binary(alloc, "f", &x, &binary(alloc, "g", &y, &x)?)
}

fn variable(alloc: Global, number: u64) -> Result<FlatTerm, NoMemory> {
    if number == u64::MAX {
        return Err(NoMemory);
    }
    single(alloc, Cell::Var(number))
}

/// How many variables a copy takes, if it is the wanted one.
fn taken(alloc: Global, old: &FlatTerm, wanted: &FlatTerm) -> Result<Option<u64>, NoMemory> {
    let (copy, taken) = copy_term(alloc, old, 5)?;
    if copy.cells() == wanted.cells() {
        Ok(Some(taken))
    } else {
        Ok(None)
    }
}

#[test]
fn copies(rt: HostRuntime) -> Result<(), Fail> {
    let alloc = rt.alloc();
    let (old, new) = (pairs(alloc, 7, 3)?, pairs(alloc, 5, 6)?);
    expect(&rt, taken(alloc, &old, &new)?, Some(2), "taken");
    Ok(())
}
