//! The arguments of a term, one after another.
ghost use Rattle.std.specs.Prelude.{◌≡◌, MatchOption};
ghost use Rattle.std.specs.Iterator.{at_most};
ghost use Rattle.au_term.specs.PrefixOrder.{term_of, IsTerm};
ghost use Rattle.au_term.specs.Term.{arguments, count, end, more};

use crate::cell::Cell;
use crate::flat::FlatTerm;
use std::marker::Model;

/// The arguments that are still to come, each as its cells, in a step each. Contracts see their
/// list.
#[derive(Drop)]
pub struct Arguments<'a> {
    term: &'a FlatTerm,
    at: usize,
    left: u32,
}

impl<'a> Model for Arguments<'a> {
    ghost use Rattle.std.specs.Prelude.{drop, ◌≤◌};
    ghost use Rattle.au_term.specs.Term.{Terms, count, take_terms};
    ghost use Rattle.au_term.specs.PrefixOrder.{cells_of, terms_of};
    ghost use Rattle.au_term.specs.Arguments.{terms_code};

    ghost Value = { Terms };

    ghost coded = { terms_code };

    ghost view = { λ a. take_terms a.left (terms_of (drop a.at (cells_of a.term.now))) };

    ghost invariant = { λ a. a.left ≤ count (terms_of (drop a.at (cells_of a.term.now))) };
}

impl FlatTerm {
    /// Its arguments.
    pub fn args(&self) -> Arguments<'_>
        ensures { result ≡ arguments self.entry.now }
    {
        Arguments {
            term: self,
            at: 1,
            left: self.top().arity(),
        }
    }
}

impl<'a> Iterator for Arguments<'a> {
    type Item = &'a [Cell];

    ghost next_gives = { λ old given new. MatchOption given ((old ≡ end) × (new ≡ end)) (λ cells. (old ≡ more (term_of cells.now) new) × IsTerm cells.now) };

    ghost remaining = { λ a. at_most (count a) };

    fn next(&mut self) -> Option<&'a [Cell]> {
        if self.left == 0 {
            return None;
        }
        let cells = self.term.subterm(self.at);
        self.at = self.term.term_end(self.at);
        self.left -= 1;
        Some(cells)
    }
}
