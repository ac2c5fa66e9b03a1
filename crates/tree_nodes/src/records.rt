//! Records in their order, in batches that credits share.
ghost use Rattle.std.specs.Prelude.{◌≡◌, ◌≢◌, ◌++◌, [], IfOk, OnOk, OnErr, length};
ghost use Rattle.std.specs.Bool.{OnTrue, OnFalse};
ghost use Rattle.tree_nodes.specs.Batches.{batched_terms};

use au_term::{FlatTerm, NoMemory};
use std::alloc::Global;
use std::marker::Model;
use std::sync::Arc;

/// Records that are shared as a whole, one at least. Contracts see their list.
#[derive(Drop)]
pub(crate) struct Batch {
    records: Arc<Vec<FlatTerm>>,
}

impl Model for Batch {
    ghost use Rattle.std.specs.Prelude.{◌≢◌, [], List};
    ghost use Rattle.std.specs.Arc.{arc_value};
    ghost use Rattle.std.specs.Coded.{codes};
    ghost use Rattle.au_term.specs.Term.{Term};
    ghost use Rattle.au_term.specs.PrefixOrder.{term_code};

    ghost Value = { List Term };

    ghost coded = { Prim.hlevel (codes, term_code) };

    ghost view = { λ p. (arc_value p.records).items };

    ghost invariant = { λ p. (arc_value p.records).items ≢ [] };
}

impl Batch {
    /// These records.
    pub(crate) fn new(alloc: Global, records: Vec<FlatTerm>) -> Result<Batch, NoMemory>
        requires { records.items ≢ [] }
        ensures { IfOk result (λ batch. batch ≡ records.items) }
    {
        Ok(Batch {
            records: Arc::new(alloc, records)?,
        })
    }

    /// How many there are.
    pub(crate) fn len(&self) -> usize
        ensures length { result ≡ length self.now }
        ensures some { self.now ≢ [] }
    {
        self.records.len()
    }

    /// The same, shared.
    pub(crate) fn share(&self) -> Result<Batch, NoMemory>
        ensures { IfOk result (λ batch. batch ≡ self.now) }
    {
        Ok(Batch {
            records: Arc::clone(&self.records)?,
        })
    }

    /// Copies of these and of the records behind them, as one batch.
    pub(crate) fn with(&self, alloc: Global, behind: &Batch) -> Result<Batch, NoMemory>
        ensures { IfOk result (λ batch. batch ≡ self.now ++ behind.now) }
    {
        // The proof reads off that there are some.
        let _many = self.len();
        let mut all = Vec::new(alloc);
        self.copy_to(&mut all)?;
        behind.copy_to(&mut all)?;
        Batch::new(alloc, all)
    }

    fn copy_to(&self, out: &mut Vec<FlatTerm>) -> Result<(), NoMemory>
        ensures { OnOk result (out.new.items ≡ out.old.items ++ self.now) }
    {
        copy_behind(&self.records, out)
    }
}

/// Records in their order. What was collected once is shared where credits are added up. Contracts see their list.
#[derive(Drop)]
pub struct Records {
    batches: Vec<Batch>,
}

impl Model for Records {
    ghost use Rattle.std.specs.Prelude.{List};
    ghost use Rattle.std.specs.Coded.{codes};
    ghost use Rattle.au_term.specs.Term.{Term};
    ghost use Rattle.au_term.specs.PrefixOrder.{term_code};

    ghost Value = { List Term };

    ghost coded = { Prim.hlevel (codes, term_code) };

    ghost use Rattle.tree_nodes.specs.Batches.{batched_terms};

    ghost view = { λ r. batched_terms r.batches.items };
}

impl Records {
    /// No records.
    pub fn new(alloc: Global) -> Records
        ensures { result ≡ [] }
    {
        Records {
            batches: Vec::new(alloc),
        }
    }

    /// These records.
    pub fn of(alloc: Global, records: Vec<FlatTerm>) -> Result<Records, NoMemory>
        ensures records { IfOk result (λ all. all ≡ records.items) }
        ensures some { OnErr result (records.items ≢ []) }
    {
        if records.is_empty() {
            return Ok(Records::new(alloc));
        }
        let mut batches = Vec::new(alloc);
        batches.push(Batch::new(alloc, records)?)?;
        Ok(Records { batches })
    }

    pub(crate) fn of_batches(batches: Vec<Batch>) -> Records
        ensures { result ≡ batched_terms batches.items }
    {
        Records { batches }
    }

    pub(crate) fn batches(&self) -> &[Batch]
        ensures terms { batched_terms result.now ≡ self.now }
        ensures none { self.now ≡ [] → result.now ≡ [] }
    {
        // The proof reads off that no batch is empty.
        let _none = are_none(&self.batches);
        &self.batches
    }

    pub(crate) fn into_batches(self) -> Vec<Batch>
        ensures { batched_terms result.items ≡ self }
    {
        let Records { batches } = self;
        batches
    }

    /// Copies of all records.
    pub fn copied(&self, alloc: Global) -> Result<Vec<FlatTerm>, NoMemory>
        ensures { IfOk result (λ all. all.items ≡ self.now) }
    {
        copied(alloc, &self.batches)
    }
}

/// Whether there are no records.
pub(crate) fn are_none(batches: &[Batch]) -> bool
    ensures none { OnTrue result (batches.now ≡ []) }
    ensures some { OnFalse result (batched_terms batches.now ≢ []) }
{
    match batches.first() {
        Some(first) => {
            // The proof reads off that it is not empty.
            let _many = first.len();
            false
        }
        None => true,
    }
}

fn copied(alloc: Global, batches: &[Batch]) -> Result<Vec<FlatTerm>, NoMemory>
    ensures { IfOk result (λ all. all.items ≡ batched_terms batches.now) }
{
    let mut all = Vec::new(alloc);
    for batch in batches {
        batch.copy_to(&mut all)?;
    }
    Ok(all)
}

fn copy_behind(records: &[FlatTerm], out: &mut Vec<FlatTerm>) -> Result<(), NoMemory>
    ensures { OnOk result (out.new.items ≡ out.old.items ++ records.now) }
{
    for record in records {
        out.push(record.copy()?)?;
    }
    Ok(())
}
