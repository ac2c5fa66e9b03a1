//! Atoms put together, and taken apart into two (ISO/IEC 13211-1, 8.16.2).
ghost use Rattle.std.specs.Prelude.{◌≡◌, ◌++◌, ◌∷◌, ◌≤◌, ◌&&◌, ◌||◌, [], Ok, filter, length, map, IfOk, OnOk};
ghost use Rattle.std.specs.Str.{chars};
ghost use Rattle.au_term.specs.Term.{AtomTerm};
ghost use Rattle.au_model.specs.Terms.Forms.{name_of};
ghost use Rattle.run_model.specs.Goals.AtomParts.{atom_concat_answer, concat_answer, fits_split, split_at, split_solution};
ghost use Rattle.run_model.specs.Goals.TermTests.{is_variable};
ghost use Rattle.std_builtins.specs.Answers.{IsAnswer, solution_meant};
ghost use Rattle.std_builtins.specs.AskedParts.{IsAskedText, split_solutions};

use crate::answer::{BuiltinRefusal, Solution, equal, failed};
use crate::asked::{Asked, asked_for, atom_of, characters_of};
use crate::characters::atom_term;
use crate::checks::{Check, check_all};
use crate::type_tests::TypeTest;
use au_model::Fault;
use au_term::{Cell, FlatTerm, NoMemory};
use std::alloc::Global;

/// What `atom_concat(A, B, C)` answers.
pub(crate) fn atom_concat(
    alloc: Global,
    first: &FlatTerm,
    second: &FlatTerm,
    whole: &FlatTerm,
) -> Result<Vec<Solution>, BuiltinRefusal>
    ensures { IsAnswer (atom_concat_answer first.now second.now whole.now) result }
{
    if is_undetermined(first, second, whole) {
        return failed(Fault::Instantiation);
    }
    check_all(Check::OpenAtom, &[first, second, whole])?;
    concatenated(alloc, first, second, whole)
}

/// Whether neither the whole nor both parts are given.
fn is_undetermined(first: &FlatTerm, second: &FlatTerm, whole: &FlatTerm) -> bool
    ensures { result ≡ (is_variable whole.now && (is_variable first.now || is_variable second.now)) }
{
    let variable = TypeTest::Variable;
    variable.holds(whole) && (variable.holds(first) || variable.holds(second))
}

/// The characters of a name, none of a variable or an integer.
fn name_text(term: &FlatTerm) -> &str
    ensures { chars result.now ≡ name_of term.now }
{
    match term.top() {
        Cell::Atom(name) | Cell::Functor(name, _) => name.text(),
        _ => "",
    }
}

/// What it answers for variables and atoms.
fn concatenated(
    alloc: Global,
    first: &FlatTerm,
    second: &FlatTerm,
    whole: &FlatTerm,
) -> Result<Vec<Solution>, BuiltinRefusal>
    ensures { IsAnswer (concat_answer first.now second.now whole.now) result }
{
    if TypeTest::Atom.holds(first) && TypeTest::Atom.holds(second) {
        let made = joined(alloc, name_text(first), name_text(second))?;
        return equal(alloc, whole.copy()?, made);
    }
    let first = asked_for(alloc, first)?;
    let second = asked_for(alloc, second)?;
    let characters = characters_of(alloc, name_text(whole))?;
    Ok(splits(alloc, &first, &second, &characters)?)
}

/// The atom of one text after another.
fn joined(alloc: Global, first: &str, second: &str) -> Result<FlatTerm, NoMemory>
    ensures { IfOk result (λ t. t ≡ AtomTerm (chars first.now ++ chars second.now)) }
{
    let mut text = String::from_str(alloc, first)?;
    text.push_str(second)?;
    atom_term(alloc, text.as_str())
}

/// The solutions that take characters apart.
fn splits(
    alloc: Global,
    first: &Asked<'_>,
    second: &Asked<'_>,
    characters: &[char],
) -> Result<Vec<Solution>, NoMemory>
    requires first { IsAskedText first.now }
    requires second { IsAskedText second.now }
    ensures { IfOk result (λ solutions. map solution_meant solutions.items ≡ split_solutions first.now second.now characters.now) }
{
    let mut solutions = Vec::new(alloc);
    for at in 0..characters.len() {
        push_split(alloc, first, second, characters, at, &mut solutions)?;
    }
    push_split(
        alloc,
        first,
        second,
        characters,
        characters.len(),
        &mut solutions,
    )?;
    Ok(solutions)
}

/// Puts the solution with so many characters in the first part after others, where it fits.
fn push_split(
    alloc: Global,
    first: &Asked<'_>,
    second: &Asked<'_>,
    characters: &[char],
    at: usize,
    solutions: &mut Vec<Solution>,
) -> Result<(), NoMemory>
    requires first { IsAskedText first.now }
    requires second { IsAskedText second.now }
    requires at { at ≤ length characters.now }
    ensures { OnOk result (map solution_meant solutions.new.items ≡ map solution_meant solutions.old.items
        ++ map (split_solution first.now.term.now second.now.term.now) (filter (fits_split first.now.term.now second.now.term.now) (split_at characters.now at ∷ []))) }
{
    let (left, right) = (&characters[..at], &characters[at..]);
    if first.admits(left) && second.admits(right) {
        let mut equations = Vec::new(alloc);
        equations.push((first.term.copy()?, atom_of(alloc, left)?))?;
        equations.push((second.term.copy()?, atom_of(alloc, right)?))?;
        solutions.push(Solution { equations, vars: 0 })?;
    }
    Ok(())
}
