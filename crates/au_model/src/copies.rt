//! Copies of terms, whose variables are numbered in order of first occurrence (ISO/IEC 13211-1, 7.1.6.2).
ghost use Rattle.std.specs.Prelude.{◌≡◌, ◌<◌, ◌+◌, ◌-◌, ◌^◌, [], length, IfOk, OnOk};
ghost use Rattle.au_term.specs.PrefixOrder.{IsValidCell};
ghost use Rattle.au_model.specs.Terms.Substitutions.{apply};
ghost use Rattle.au_model.specs.Terms.Copies.{copied, copy_takes, noted, place_of, renamed, seen_in};
ghost use Rattle.au_model.specs.Terms.CopiedCells.{occurrences_at, renamed_cell};

use au_term::{Cell, FlatTerm, NoMemory, TermBuilder, VarNo};
use std::alloc::Global;
use std::collections::BTreeMap;
use std::marker::Model;

/// The variables that were seen, each with its place among them. Contracts see them in order of first occurrence.
#[derive(Drop)]
pub struct Renaming {
    seen: Vec<VarNo>,
    places: BTreeMap<VarNo, usize>,
}

impl Model for Renaming {
    ghost use Rattle.std.specs.Prelude.{◌≡◌, ℕ, List};
    ghost use Rattle.std.specs.Ordering.{nat_cmp};
    ghost use Rattle.std.specs.BTreeMap.{get};
    ghost use Rattle.au_model.specs.Terms.CopiedCells.{place_among};

    ghost Value = { List ℕ };

    ghost view = { λ r. r.seen.items };

    ghost invariant = { λ r. (x : ℕ) → get nat_cmp r.places x ≡ place_among x r.seen.items };
}

/// A copy, and the variables that were seen up to its end.
#[derive(Drop)]
pub struct Copied {
    pub term: FlatTerm,
    pub renaming: Renaming,
}

/// The copy of a term with variables from a number on, and how many numbers it takes.
pub fn copy_term(alloc: Global, term: &FlatTerm, next: VarNo) -> Result<(FlatTerm, u64), NoMemory>
    ensures copy { IfOk result (λ r. r.0 ≡ copied term.now next) }
    ensures takes { IfOk result (λ r. r.1 ≡ copy_takes term.now) }
{
    let Copied { term, renaming } = Renaming::new(alloc).copy(alloc, term, next)?;
    Ok((term, renaming.count()))
}

impl Renaming {
    /// No variable was seen.
    pub fn new(alloc: Global) -> Renaming
        ensures { result ≡ [] }
    {
        Renaming {
            seen: Vec::new(alloc),
            places: BTreeMap::new(alloc),
        }
    }

    /// How many variables were seen.
    pub fn count(&self) -> u64
        ensures { result ≡ length self.now }
    {
        self.seen.len() as u64
    }

    /// Copies a term: each variable becomes the one with the next number and its place.
    pub fn copy(self, alloc: Global, term: &FlatTerm, next: VarNo) -> Result<Copied, NoMemory>
        ensures seen { IfOk result (λ r. r.renaming ≡ seen_in term.now self) }
        ensures copy { IfOk result (λ r. r.term ≡ apply (renamed (seen_in term.now self) next) term.now) }
    {
        let mut renaming = self;
        let mut builder = TermBuilder::new(alloc);
        let cells = term.cells();
        for cell in cells {
            builder.push(renaming.cell(cell, next)?)?;
        }
        Ok(Copied {
            term: builder.finish(),
            renaming,
        })
    }

    /// A cell with its variable renamed.
    fn cell(&mut self, cell: &Cell, next: VarNo) -> Result<Cell, NoMemory>
        requires { IsValidCell cell.now }
        ensures seen { OnOk result (self.new ≡ occurrences_at cell.now self.old) }
        ensures renamed { IfOk result (λ c. c ≡ renamed_cell self.new next cell.now) }
        ensures sound { IfOk result IsValidCell }
    {
        match cell {
            Cell::Var(number) => {
                let place = self.note(*number)?;
                Ok(Cell::Var(number_at(next, place)?))
            }
            _ => cell.share(),
        }
    }

    /// The place of a variable, which is now seen.
    fn note(&mut self, variable: VarNo) -> Result<usize, NoMemory>
        ensures seen { OnOk result (self.new ≡ noted self.old variable) }
        ensures place { IfOk result (λ place. place ≡ place_of self.new variable) }
    {
        if let Some(place) = self.places.get(&variable) {
            return Ok(*place);
        }
        let place = self.seen.len();
        self.seen.reserve(1)?;
        self.places.insert(variable, place)?;
        self.seen.push(variable).unwrap();
        Ok(place)
    }
}

/// The number at a place after the next one; past the greatest number there is no memory for it.
fn number_at(next: VarNo, place: usize) -> Result<VarNo, NoMemory>
    ensures sum { IfOk result (λ n. n ≡ next + place) }
    ensures sound { IfOk result (λ n. n < 2 ^ 64 - 1) }
{
    match next.checked_add(place as u64) {
        Some(sum) if sum < VarNo::MAX => Ok(sum),
        _ => Err(NoMemory),
    }
}
