//! Procedures by name and number of arguments.
ghost use Rattle.std.specs.Prelude.{◌≡◌, IfOk};
ghost use Rattle.au_term.specs.Term.{argument_count};
ghost use Rattle.au_model.specs.Terms.Forms.{name_of};

use au_model::names::name_of;
use au_term::{Atom, NoMemory};
use clause_compile::Clause;
use std::alloc::AllocError;

/// A procedure's name and number of arguments (ISO/IEC 13211-1, 7.1.6.6).
#[derive(PartialEq, Eq, PartialOrd, Ord, Drop)]
pub struct Indicator {
    pub name: Atom,
    pub arity: u32,
}

impl Indicator {
    /// That of a clause.
    pub fn of_clause(clause: &Clause) -> Result<Indicator, NoMemory>
        ensures { IfOk result (λ i. (i.name ≡ name_of clause.now.head) × (i.arity ≡ argument_count clause.now.head)) }
    {
        let head = clause.head();
        Ok(Indicator {
            name: name_of(head).share()?,
            arity: head.arity(),
        })
    }

    /// The same.
    pub fn share(&self) -> Result<Indicator, NoMemory>
        ensures { IfOk result (λ i. i ≡ self.now) }
    {
        Ok(Indicator {
            name: self.name.share()?,
            arity: self.arity,
        })
    }
}

impl Clone for Indicator {
    ghost is_clone = { λ x y. y ≡ x };

    fn clone(&self) -> Result<Indicator, AllocError> {
        match self.share() {
            Ok(indicator) => Ok(indicator),
            Err(NoMemory) => Err(AllocError),
        }
    }
}
