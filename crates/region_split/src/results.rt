//! The results of a findall.
ghost use Rattle.std.specs.Prelude.{◌≡◌, [], OnOk, OnErr};
ghost use Rattle.region_split.specs.ResultLists.{with_copy};

use au_model::copies::copy_term;
use au_term::{FlatTerm, NoMemory, VarNo};
use std::alloc::Global;
use std::marker::Model;

/// The results of a findall, and the next variable number after theirs.
#[derive(Drop)]
pub struct Results {
    terms: Vec<FlatTerm>,
    next: VarNo,
}

impl Model for Results {
    ghost use Rattle.std.specs.Coded.{codes};
    ghost use Rattle.au_term.specs.PrefixOrder.{term_code};
    ghost use Rattle.region_split.specs.ResultLists.{ResultsView};

    ghost Value = { ResultsView };

    ghost coded = { Prim.hlevel (codes, term_code) };

    ghost view = { λ r. record { terms = r.terms.items; next = r.next } };
}

impl Results {
    /// No results, before this number.
    pub fn new(alloc: Global, next: VarNo) -> Results
        ensures { result ≡ record { terms = []; next = next } }
    {
        Results {
            terms: Vec::new(alloc),
            next,
        }
    }

    /// The results, in the order in which they came.
    pub fn terms(&self) -> &[FlatTerm]
        ensures { result.now ≡ self.entry.now.terms }
    {
        &self.terms
    }

    /// The next number after theirs.
    pub fn next(&self) -> VarNo
        ensures { result ≡ self.now.next }
    {
        self.next
    }

    /// The results themselves.
    pub fn into_terms(self) -> Vec<FlatTerm>
        ensures { result.items ≡ self.terms }
    {
        self.terms
    }

    /// Adds a copy of a term, with the next numbers. A term without variables is its own copy.
    pub(crate) fn push(&mut self, alloc: Global, term: FlatTerm) -> Result<(), NoMemory>
        ensures ok { OnOk result (self.new ≡ with_copy term self.old) }
        ensures err { OnErr result (self.new ≡ self.old) }
    {
        if term.bound() == 0 {
            self.terms.push(term)?;
            return Ok(());
        }
        let (copy, takes) = copy_term(alloc, &term, self.next)?;
        let Some(next) = self.next.checked_add(takes) else {
            return Err(NoMemory);
        };
        self.terms.push(copy)?;
        self.next = next;
        Ok(())
    }
}
