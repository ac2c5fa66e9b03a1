//! Parts of atoms (ISO/IEC 13211-1, 8.16.3). Where one argument decides how long a part is, its places are gone through
//! once.
ghost use Rattle.std.specs.Prelude.{◌≡◌, ◌++◌, ◌∷◌, ◌+◌, ◌-◌, ◌≤◌, [], true, filter, length, map, IfOk, OnOk};
ghost use Rattle.std.specs.Str.{chars};
ghost use Rattle.au_model.specs.Terms.ErrorTerms.{type_error};
ghost use Rattle.run_model.specs.Goals.AtomGoals.{is_open_atom, with_counts, with_each};
ghost use Rattle.run_model.specs.Goals.AtomParts.{admits_atom, fits_part, part_at, part_solution, part_term, found_parts_answer, parts_from, atom_parts, sub_atom_answer};
ghost use Rattle.std_builtins.specs.Answers.{IsAnswer, solution_meant};
ghost use Rattle.std_builtins.specs.AskedParts.{AreAskedAgreements, IsAskedText, IsOnlyLength, asked_meant};

use crate::answer::{BuiltinRefusal, Solution, failed};
use crate::asked::{Asked, admits_count, asked_for, characters_of, count_term, only_count};
use crate::checks::{Check, check_all};
use au_model::build::compound;
use au_model::{Fault, TypeName};
use au_term::{Atom, Cell, FlatTerm, NoMemory};
use std::alloc::Global;

/// B, L, E and S of `sub_atom(A, B, L, E, S)`.
#[derive(Drop)]
pub(crate) struct PartsAsked<'a> {
    pub(crate) before: &'a FlatTerm,
    pub(crate) length: &'a FlatTerm,
    pub(crate) after: &'a FlatTerm,
    pub(crate) text: Asked<'a>,
}

/// What `sub_atom(A, B, L, E, S)` answers.
pub(crate) fn sub_atom(
    alloc: Global,
    atom: &FlatTerm,
    before: &FlatTerm,
    length: &FlatTerm,
    after: &FlatTerm,
    text: &FlatTerm,
) -> Result<Vec<Solution>, BuiltinRefusal>
    ensures { IsAnswer (sub_atom_answer atom.now (record { before = before.now; length = length.now; after = after.now; text = text.now })) result }
{
    match atom.top() {
        Cell::Var(_) => failed(Fault::Instantiation),
        Cell::Atom(name) => {
            check_all(Check::OpenAtom, &[text])?;
            check_all(Check::OpenInteger, &[before, length, after])?;
            check_all(Check::NotBelowZero, &[before, length, after])?;
            let text = asked_for(alloc, text)?;
            let asked = PartsAsked {
                before,
                length,
                after,
                text,
            };
            let characters = characters_of(alloc, name.text())?;
            Ok(asked.solutions(alloc, &characters)?)
        }
        _ => failed(Fault::WrongType(TypeName::Atom, atom.copy()?)),
    }
}

impl PartsAsked<'_> {
    /// The solutions of the parts that fit.
    fn solutions(&self, alloc: Global, characters: &[char]) -> Result<Vec<Solution>, NoMemory>
        requires { IsAskedText self.now.text }
        ensures { IfOk result (λ solutions. map solution_meant solutions.items ≡ map (part_solution (asked_meant self.now)) (filter (fits_part (asked_meant self.now)) (atom_parts characters.now))) }
    {
        let found = self.text.found_in(alloc, characters)?;
        let mut solutions = Vec::new(alloc);
        for start in 0..characters.len() {
            self.push_from(alloc, characters, &found, start, &mut solutions)?;
        }
        self.push_from(alloc, characters, &found, characters.len(), &mut solutions)?;
        Ok(solutions)
    }

    /// Puts the solutions of the parts that begin at a place after others.
    fn push_from(
        &self,
        alloc: Global,
        characters: &[char],
        found: &[usize],
        start: usize,
        solutions: &mut Vec<Solution>,
    ) -> Result<(), NoMemory>
        requires asked { IsAskedText self.now.text }
        requires found { AreAskedAgreements self.now.text.characters characters.now found.now }
        requires start { start ≤ length characters.now }
        ensures { OnOk result (map solution_meant solutions.new.items ≡ map solution_meant solutions.old.items
            ++ map (part_solution (asked_meant self.now)) (filter (fits_part (asked_meant self.now)) (parts_from characters.now start))) }
    {
        if !admits_count(self.before, start) {
            return Ok(());
        }
        let rest = characters.len() - start;
        match self.only_length(rest) {
            Some(count) if count <= rest => self.push(
                alloc, characters, found, start, count, solutions,
            ),
            Some(_) => Ok(()),
            None => self.push_all_from(alloc, characters, found, start, solutions),
        }
    }

    /// The one length that a part can have, if an argument says it.
    fn only_length(&self, rest: usize) -> Option<usize>
        requires { IsAskedText self.now.text }
        ensures { IsOnlyLength self.now rest result }
    {
        if let Some(length) = only_count(self.length) {
            return Some(length);
        }
        if let Some(characters) = &self.text.characters {
            return Some(characters.len());
        }
        let after = only_count(self.after)?;
        Some(rest.saturating_sub(after))
    }

    /// Puts the solutions of the parts of each length that begin at a place after others.
    fn push_all_from(
        &self,
        alloc: Global,
        characters: &[char],
        found: &[usize],
        start: usize,
        solutions: &mut Vec<Solution>,
    ) -> Result<(), NoMemory>
        requires asked { IsAskedText self.now.text }
        requires found { AreAskedAgreements self.now.text.characters characters.now found.now }
        requires start { start ≤ length characters.now }
        ensures { OnOk result (map solution_meant solutions.new.items ≡ map solution_meant solutions.old.items
            ++ map (part_solution (asked_meant self.now)) (filter (fits_part (asked_meant self.now)) (parts_from characters.now start))) }
    {
        let rest = characters.len() - start;
        for count in 0..rest {
            self.push(alloc, characters, found, start, count, solutions)?;
        }
        self.push(alloc, characters, found, start, rest, solutions)
    }

    /// Puts the solution of a part after others, where it fits.
    fn push(
        &self,
        alloc: Global,
        characters: &[char],
        found: &[usize],
        start: usize,
        count: usize,
        solutions: &mut Vec<Solution>,
    ) -> Result<(), NoMemory>
        requires asked { IsAskedText self.now.text }
        requires found { AreAskedAgreements self.now.text.characters characters.now found.now }
        requires within { start + count ≤ length characters.now }
        ensures { OnOk result (map solution_meant solutions.new.items ≡ map solution_meant solutions.old.items
            ++ map (part_solution (asked_meant self.now)) (filter (fits_part (asked_meant self.now)) (part_at characters.now start count ∷ []))) }
    {
        let after = characters.len() - start - count;
        let fits = admits_count(self.before, start)
            && admits_count(self.length, count)
            && admits_count(self.after, after)
            && self.text.admits_at(characters, found, start, count);
        if fits {
            let text = &characters[start..start + count];
            solutions.push(self.solution(alloc, start, count, after, text)?)?;
        }
        Ok(())
    }

    /// The solution of a part.
    fn solution(
        &self,
        alloc: Global,
        before: usize,
        length: usize,
        after: usize,
        text: &[char],
    ) -> Result<Solution, NoMemory>
        requires { admits_atom self.now.text.term.now text.now ≡ true }
        ensures { IfOk result (λ s. solution_meant s ≡ part_solution (asked_meant self.now) (record { before = before; length = length; after = after; text = text.now })) }
    {
        let before = count_term(alloc, before)?;
        let length = count_term(alloc, length)?;
        let after = count_term(alloc, after)?;
        let text = self.text.part_found(alloc, text)?;
        let asked = part_term(alloc, self.before, self.length, self.after, self.text.term)?;
        let found = part_term(alloc, &before, &length, &after, &text)?;
        let mut equations = Vec::new(alloc);
        equations.push((asked, found))?;
        Ok(Solution { equations, vars: 0 })
    }
}

/// The arguments as one term.
fn part_term(
    alloc: Global,
    before: &FlatTerm,
    length: &FlatTerm,
    after: &FlatTerm,
    text: &FlatTerm,
) -> Result<FlatTerm, NoMemory>
    ensures { IfOk result (λ t. t ≡ part_term before.now length.now after.now text.now) }
{
    let name = Atom::ascii(alloc, "part")?;
    compound(alloc, name, &[before, length, after, text])
}
