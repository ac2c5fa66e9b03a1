//! Credits added up.
ghost use Rattle.std.specs.Prelude.{◌≡◌, ◌≢◌, ◌++◌, [], List, IfOk, OnOk, OnErr, reverse};
ghost use Rattle.au_term.specs.Term.{Term};
ghost use Rattle.tree_model.specs.Credits.{added, credit_of};
ghost use Rattle.tree_nodes.specs.Batches.{batched_terms};
ghost use Rattle.tree_nodes.specs.Rows.{credit_view};

use crate::merging::merged;
use crate::records::{Batch, Records, are_none};
use crate::state::Credit;
use au_term::NoMemory;
use std::alloc::Global;
use std::marker::Model;

/// A sum of credits that grows at both ends: the batches of records on the left of the first are kept backwards.
#[derive(Drop)]
pub(crate) struct Gathered {
    inferences: u64,
    answers: u64,
    before: Vec<Batch>,
    behind: Vec<Batch>,
}

impl Model for Gathered {
    ghost use Rattle.std.specs.Prelude.{◌++◌, reverse};
    ghost use Rattle.tree_nodes.specs.Batches.{batched_terms};
    ghost use Rattle.std.specs.Coded.{codes};
    ghost use Rattle.au_term.specs.PrefixOrder.{term_code};
    ghost use Rattle.tree_model.specs.Credits.{Credit};

    ghost Value = { Credit };

    ghost coded = { Prim.hlevel (codes, term_code) };

    ghost view = { λ g. record { inferences = g.inferences; answers = g.answers; records = batched_terms (reverse g.before.items) ++ batched_terms g.behind.items } };
}

impl Gathered {
    /// A first credit.
    pub(crate) fn new(alloc: Global, credit: Credit) -> Gathered
        ensures { result ≡ credit_view credit }
    {
        let Credit {
            inferences,
            answers,
            records,
        } = credit;
        Gathered {
            inferences,
            answers,
            before: Vec::new(alloc),
            behind: records.into_batches(),
        }
    }

    /// Inferences on the left.
    pub(crate) fn spend(&mut self, inferences: u64)
        ensures { self.new ≡ added (credit_of inferences) self.old }
    {
        self.inferences = inferences.saturating_add(self.inferences);
        self.answers = 0u64.saturating_add(self.answers);
    }

    /// A credit on the left.
    pub(crate) fn add_left(&mut self, credit: &Credit) -> Result<(), NoMemory>
        ensures sum { OnOk result (self.new ≡ added (credit_view credit.now) self.old) }
        ensures some { OnErr result ((credit_view credit.now).records ≢ []) }
    {
        share_backwards(credit.records.batches(), &mut self.before)?;
        self.inferences = credit.inferences.saturating_add(self.inferences);
        self.answers = credit.answers.saturating_add(self.answers);
        Ok(())
    }

    /// A credit on the right.
    pub(crate) fn add_right(&mut self, credit: &Credit) -> Result<(), NoMemory>
        ensures sum { OnOk result (self.new ≡ added self.old (credit_view credit.now)) }
        ensures some { OnErr result ((credit_view credit.now).records ≢ []) }
    {
        share_behind(credit.records.batches(), &mut self.behind)?;
        self.inferences = self.inferences.saturating_add(credit.inferences);
        self.answers = self.answers.saturating_add(credit.answers);
        Ok(())
    }

    /// The sum.
    pub(crate) fn finish(self, alloc: Global) -> Result<Credit, NoMemory>
        ensures sum { IfOk result (λ credit. credit_view credit ≡ self) }
        ensures some { OnErr result (self.records ≢ []) }
    {
        let Gathered {
            inferences,
            answers,
            before,
            behind,
        } = self;
        Ok(Credit {
            inferences,
            answers,
            records: joined(alloc, before, behind)?,
        })
    }
}

// The records of both, those before backwards.
fn joined(alloc: Global, before: Vec<Batch>, behind: Vec<Batch>) -> Result<Records, NoMemory>
    ensures records { IfOk result (λ all. all ≡ batched_terms (reverse before.items) ++ batched_terms behind.items) }
    ensures some { OnErr result (batched_terms (reverse before.items) ++ batched_terms behind.items ≢ []) }
{
    let mut all = before;
    let mut rest = behind;
    all.reverse();
    if are_none(&rest) {
        return all_of(alloc, all);
    }
    all.append(&mut rest)?;
    all_of(alloc, all)
}

fn all_of(alloc: Global, batches: Vec<Batch>) -> Result<Records, NoMemory>
    ensures records { IfOk result (λ all. all ≡ batched_terms batches.items) }
    ensures some { OnErr result (batched_terms batches.items ≢ []) }
{
    if are_none(&batches) {
        return Ok(Records::new(alloc));
    }
    Ok(Records::of_batches(merged(alloc, batches)?))
}

fn share_behind(batches: &[Batch], out: &mut Vec<Batch>) -> Result<(), NoMemory>
    ensures shared { OnOk result (out.new.items ≡ out.old.items ++ batches.now) }
    ensures some { OnErr result (batches.now ≢ []) }
{
    for batch in batches {
        out.push(batch.share()?)?;
    }
    Ok(())
}

fn share_backwards(batches: &[Batch], out: &mut Vec<Batch>) -> Result<(), NoMemory>
    ensures shared { OnOk result (out.new.items ≡ out.old.items ++ reverse batches.now) }
    ensures some { OnErr result (batches.now ≢ []) }
{
    for i in 0..batches.len() {
        out.push(batches[batches.len() - 1 - i].share()?)?;
    }
    Ok(())
}
