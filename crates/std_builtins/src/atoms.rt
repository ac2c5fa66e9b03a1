//! Lengths of atoms, and characters with their codes (ISO/IEC 13211-1, 8.16.1 and 8.16.6).
ghost use Rattle.std.specs.Prelude.{◌≡◌, pos, length, IfOk};
ghost use Rattle.std.specs.Str.{chars};
ghost use Rattle.run_model.specs.Goals.AtomGoals.{atom_length_answer, char_code_answer, coded_answer, code_of};
ghost use Rattle.std_builtins.specs.Answers.{IsAnswer};

use crate::answer::{BuiltinRefusal, Solution, equal, failed};
use crate::characters::{character, character_of_code, character_term, code_of};
use crate::checks::check_number;
use crate::integers::integer;
use au_model::{Fault, LimitName, TypeName};
use au_term::{Cell, FlatTerm, NoMemory};
use std::alloc::Global;

/// What `atom_length(A, N)` answers.
pub(crate) fn atom_length(
    alloc: Global,
    atom: &FlatTerm,
    length: &FlatTerm,
) -> Result<Vec<Solution>, BuiltinRefusal>
    ensures { IsAnswer (atom_length_answer atom.now length.now) result }
{
    match atom.top() {
        Cell::Var(_) => failed(Fault::Instantiation),
        Cell::Atom(name) => {
            check_number(length)?;
            let found = integer(alloc, length_of(name.text())?)?;
            equal(alloc, length.copy()?, found)
        }
        _ => failed(Fault::WrongType(TypeName::Atom, atom.copy()?)),
    }
}

/// How many characters a text has.
fn characters_in(text: &str) -> usize
    ensures { result ≡ length (chars text.now) }
{
    text.chars().count()
}

/// The length of a text as an integer; one that is past 64 bits fits no memory.
fn length_of(text: &str) -> Result<i64, NoMemory>
    ensures { IfOk result (λ n. n ≡ pos (length (chars text.now))) }
{
    let length = characters_in(text);
    if length > 9_223_372_036_854_775_807 {
        return Err(NoMemory);
    }
    Ok(length as i64)
}

/// What `char_code(C, N)` answers.
pub(crate) fn char_code(
    alloc: Global,
    atom: &FlatTerm,
    code: &FlatTerm,
) -> Result<Vec<Solution>, BuiltinRefusal>
    ensures { IsAnswer (char_code_answer atom.now code.now) result }
{
    match (atom.top(), code.top()) {
        (Cell::Var(_), Cell::Var(_)) => failed(Fault::Instantiation),
        (Cell::Var(_), _) => coded(alloc, atom, 0, code),
        (_, _) => match character(atom) {
            Some(c) => coded(alloc, atom, code_of(c), code),
            None => failed(Fault::WrongType(TypeName::Character, atom.copy()?)),
        },
    }
}

/// What it answers for a character with this number, or for a variable and a code.
fn coded(
    alloc: Global,
    atom: &FlatTerm,
    number: i64,
    code: &FlatTerm,
) -> Result<Vec<Solution>, BuiltinRefusal>
    requires { number ≡ pos (code_of atom.now) }
    ensures { IsAnswer (coded_answer atom.now code.now) result }
{
    match code.top() {
        Cell::Var(_) => equal(alloc, code.copy()?, integer(alloc, number)?),
        Cell::Int(value) => match character_of_code(*value) {
            Some(c) => {
                let made = character_term(alloc, c)?;
                equal(alloc, atom.copy()?, made)
            }
            None => failed(Fault::Representation(LimitName::CharacterCode)),
        },
        _ => failed(Fault::WrongType(TypeName::Integer, code.copy()?)),
    }
}
