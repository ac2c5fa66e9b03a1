//! A credit that grows on its left.
ghost use Rattle.std.specs.Prelude.{◌≡◌, IfOk, OnOk};
ghost use Rattle.tree_model.specs.Credits.{added, credit_of, without_records};
ghost use Rattle.tree_nodes.specs.Rows.{credit_view};

use au_term::{FlatTerm, NoMemory};
use std::alloc::Global;
use std::marker::Model;
use tree_nodes::{Credit, Records};

/// A sum of credits: the records are kept backwards. Contracts see the sum.
#[derive(Drop)]
pub(crate) struct Sum {
    inferences: u64,
    answers: u64,
    backwards: Vec<FlatTerm>,
}

impl Model for Sum {
    ghost use Rattle.std.specs.Prelude.{reverse};
    ghost use Rattle.std.specs.Coded.{codes};
    ghost use Rattle.au_term.specs.PrefixOrder.{term_code};
    ghost use Rattle.tree_model.specs.Credits.{Credit};

    ghost Value = { Credit };

    ghost coded = { Prim.hlevel (codes, term_code) };

    ghost view = { λ s. record { inferences = s.inferences; answers = s.answers; records = reverse s.backwards.items } };
}

impl Sum {
    /// One inference.
    pub(crate) fn one(alloc: Global) -> Sum
        ensures { result ≡ credit_of 1 }
    {
        Sum {
            inferences: 1,
            answers: 0,
            backwards: Vec::new(alloc),
        }
    }

    /// Inferences on the left.
    pub(crate) fn spend(&mut self, inferences: u64)
        ensures { self.new ≡ added (credit_of inferences) self.old }
    {
        self.inferences = inferences.saturating_add(self.inferences);
        self.answers = 0u64.saturating_add(self.answers);
    }

    /// No records are left.
    pub(crate) fn forget_records(&mut self, alloc: Global)
        ensures { self.new ≡ without_records self.old }
    {
        self.backwards = Vec::new(alloc);
    }

    /// A credit on the left.
    pub(crate) fn add_left(&mut self, alloc: Global, credit: &Credit) -> Result<(), NoMemory>
        ensures { OnOk result (self.new ≡ added (credit_view credit.now) self.old) }
    {
        let mut records = credit.records.copied(alloc)?;
        records.reverse();
        self.backwards.append(&mut records)?;
        self.inferences = credit.inferences.saturating_add(self.inferences);
        self.answers = credit.answers.saturating_add(self.answers);
        Ok(())
    }

    /// The sum.
    pub(crate) fn finish(self, alloc: Global) -> Result<Credit, NoMemory>
        ensures { IfOk result (λ credit. credit_view credit ≡ self) }
    {
        let Sum {
            inferences,
            answers,
            backwards,
        } = self;
        let mut records = backwards;
        records.reverse();
        Ok(Credit {
            inferences,
            answers,
            records: Records::of(alloc, records)?,
        })
    }
}
