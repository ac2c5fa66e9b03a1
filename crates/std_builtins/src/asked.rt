//! What the arguments of goals on parts of atoms ask for, and the terms of parts (ISO/IEC 13211-1, 8.16.2 and 8.16.3).
ghost use Rattle.std.specs.Prelude.{◌≡◌, ◌+◌, ◌≤◌, true, length, take, drop, pos, IfOk, MatchOption};
ghost use Rattle.std.specs.Str.{chars};
ghost use Rattle.au_term.specs.Term.{AtomTerm, IntTerm};
ghost use Rattle.au_model.specs.Terms.Forms.{same_name};
ghost use Rattle.run_model.specs.Goals.AtomParts.{admits_atom, admits_count};
ghost use Rattle.std_builtins.specs.AskedParts.{AreAskedAgreements, IsAskedText, IsOnlyCount};

use crate::agreement::agreements;
use crate::characters::{atom_term, put};
use crate::integers::integer;
use au_term::{Cell, FlatTerm, NoMemory};
use std::alloc::Global;

/// An argument that may be a part: a variable, or an atom with its characters.
#[derive(Drop)]
pub(crate) struct Asked<'a> {
    pub(crate) term: &'a FlatTerm,
    pub(crate) characters: Option<Vec<char>>,
}

/// An argument with its characters, if it is an atom.
pub(crate) fn asked_for(alloc: Global, term: &FlatTerm) -> Result<Asked<'_>, NoMemory>
    ensures asked { IfOk result IsAskedText }
    ensures term { IfOk result (λ asked. asked.term.now ≡ term.now) }
{
    let characters = match term.top() {
        Cell::Atom(name) => Some(characters_of(alloc, name.text())?),
        _ => None,
    };
    Ok(Asked { term, characters })
}

impl Asked<'_> {
    /// Whether these characters can be the part.
    pub(crate) fn admits(&self, part: &[char]) -> bool
        requires { IsAskedText self.now }
        ensures { result ≡ admits_atom self.now.term.now part.now }
    {
        match &self.characters {
            Some(characters) => is_same(characters, part),
            None => true,
        }
    }

    /// How far the part, if it is bound, agrees with what stands at each place of a text that is put after it.
    pub(crate) fn found_in(&self, alloc: Global, text: &[char]) -> Result<Vec<usize>, NoMemory>
        ensures { IfOk result (λ found. AreAskedAgreements self.now.characters text.now found.items) }
    {
        match &self.characters {
            Some(part) => {
                let mut joined = Vec::new(alloc);
                joined.extend_from_slice(part)?;
                joined.extend_from_slice(text)?;
                agreements(alloc, &joined)
            }
            None => Ok(Vec::new(alloc)),
        }
    }

    /// Whether so many characters from a place of a text on can be the part. What was found tells it, and the text
    /// itself is not read.
    pub(crate) fn admits_at(
        &self,
        text: &[char],
        found: &[usize],
        start: usize,
        count: usize,
    ) -> bool
        requires asked { IsAskedText self.now }
        requires found { AreAskedAgreements self.now.characters text.now found.now }
        requires within { start + count ≤ length text.now }
        ensures { result ≡ admits_atom self.now.term.now (take count (drop start text.now)) }
    {
        match &self.characters {
            Some(part) => count == part.len() && (count == 0 || found[count + start] >= count),
            None => true,
        }
    }

    /// The atom of a part that is admitted, which shares the characters of a bound one.
    pub(crate) fn part_found(&self, alloc: Global, part: &[char]) -> Result<FlatTerm, NoMemory>
        requires { admits_atom self.now.term.now part.now ≡ true }
        ensures { IfOk result (λ t. t ≡ AtomTerm part.now) }
    {
        match self.term.top() {
            Cell::Atom(_) => self.term.copy(),
            _ => atom_of(alloc, part),
        }
    }
}

/// Whether two texts have the same characters.
fn is_same(left: &[char], right: &[char]) -> bool
    ensures { result ≡ same_name left.now right.now }
{
    left == right
}

/// Whether an argument that is a variable or a number can be this number.
pub(crate) fn admits_count(term: &FlatTerm, count: usize) -> bool
    ensures { result ≡ admits_count term.now count }
{
    match term.top() {
        Cell::Int(value) if *value >= 0 => *value as u64 == count as u64,
        _ => true,
    }
}

/// The one number that an argument can be, if it is no variable.
pub(crate) fn only_count(term: &FlatTerm) -> Option<usize>
    ensures { IsOnlyCount term.now result }
{
    match term.top() {
        Cell::Int(value) if *value >= 0 => Some(*value as usize),
        _ => None,
    }
}

/// The characters of a text.
pub(crate) fn characters_of(alloc: Global, text: &str) -> Result<Vec<char>, NoMemory>
    ensures { IfOk result (λ all. all.items ≡ chars text.now) }
{
    let mut characters = Vec::new(alloc);
    for c in text.chars() {
        characters.push(c)?;
    }
    Ok(characters)
}

/// The atom of characters.
pub(crate) fn atom_of(alloc: Global, characters: &[char]) -> Result<FlatTerm, NoMemory>
    ensures { IfOk result (λ t. t ≡ AtomTerm characters.now) }
{
    let mut text = String::new(alloc);
    for c in characters {
        put(&mut text, *c)?;
    }
    atom_term(alloc, text.as_str())
}

/// A number of characters as an integer; one that is past 64 bits fits no memory.
pub(crate) fn count_term(alloc: Global, count: usize) -> Result<FlatTerm, NoMemory>
    ensures { IfOk result (λ t. t ≡ IntTerm (pos count)) }
{
    if count > 9_223_372_036_854_775_807 {
        return Err(NoMemory);
    }
    integer(alloc, count as i64)
}
