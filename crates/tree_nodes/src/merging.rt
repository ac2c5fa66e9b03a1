//! Batches beside each other made one, so that few are left: a record is copied only where its batch grows in proportion, or
//! once where it is between greater ones.
ghost use Rattle.std.specs.Prelude.{◌≡◌, ◌++◌, IfOk, OnOk};
ghost use Rattle.tree_nodes.specs.Batches.{batched_terms, IsMergeStep};

use crate::records::Batch;
use au_term::NoMemory;
use std::alloc::Global;

/// What is to be made one before a batch is put behind others.
#[derive(Clone, Copy)]
enum Merge {
    Nothing,
    /// The last one and the one before it.
    Before,
    /// The last one and the new one.
    Last,
}

/// The same records in fewer batches.
pub(crate) fn merged(alloc: Global, batches: Vec<Batch>) -> Result<Vec<Batch>, NoMemory>
    ensures { IfOk result (λ all. batched_terms all.items ≡ batched_terms batches.items) }
{
    if batches.len() <= 1 {
        return Ok(batches);
    }
    all_merged(alloc, &batches)
}

fn all_merged(alloc: Global, batches: &[Batch]) -> Result<Vec<Batch>, NoMemory>
    ensures { IfOk result (λ all. batched_terms all.items ≡ batched_terms batches.now) }
{
    let mut all = Vec::new(alloc);
    for batch in batches {
        push_merged(alloc, &mut all, batch.share()?)?;
    }
    Ok(all)
}

fn push_merged(alloc: Global, all: &mut Vec<Batch>, batch: Batch) -> Result<(), NoMemory>
    ensures { OnOk result (batched_terms all.new.items ≡ batched_terms all.old.items ++ batch) }
{
    let mut last = batch;
    loop {
        match merge_step(alloc, all, &last)? {
            Some(next) => last = next,
            None => {
                all.push(last)?;
                return Ok(());
            }
        }
    }
}

// Makes two batches one, where that is due, and gives what is then to be put behind the others.
fn merge_step(alloc: Global, all: &mut Vec<Batch>, last: &Batch) -> Result<Option<Batch>, NoMemory>
    ensures { IfOk result (λ next. IsMergeStep all.old.items all.new.items last.now next) }
{
    match merge_of(all, last.len()) {
        Merge::Nothing => Ok(None),
        Merge::Before => merge_before(alloc, all, last),
        Merge::Last => merge_last(alloc, all, last),
    }
}

fn merge_before(
    alloc: Global,
    all: &mut Vec<Batch>,
    last: &Batch,
) -> Result<Option<Batch>, NoMemory>
    ensures { IfOk result (λ next. IsMergeStep all.old.items all.new.items last.now next) }
{
    let Some(left) = all.pop() else {
        return Ok(None);
    };
    let Some(further) = all.pop() else {
        return Ok(Some(left.with(alloc, last)?));
    };
    all.push(further.with(alloc, &left)?)?;
    Ok(Some(last.share()?))
}

fn merge_last(alloc: Global, all: &mut Vec<Batch>, last: &Batch) -> Result<Option<Batch>, NoMemory>
    ensures { IfOk result (λ next. IsMergeStep all.old.items all.new.items last.now next) }
{
    let Some(left) = all.pop() else {
        return Ok(None);
    };
    Ok(Some(left.with(alloc, last)?))
}

fn merge_of(all: &[Batch], many: usize) -> Merge {
    let Some(last) = all.last() else {
        return Merge::Nothing;
    };
    let left = last.len();
    let further = match all.len() {
        0 | 1 => 0,
        len => all[len - 2].len(),
    };
    let between = left <= further && left < many;
    if between && further <= many {
        Merge::Before
    } else if between || left / 2 <= many && many / 2 <= left {
        Merge::Last
    } else {
        Merge::Nothing
    }
}
