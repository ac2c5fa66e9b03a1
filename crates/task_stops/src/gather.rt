//! The results of a findall, and the goal that unifies its list with them.
ghost use Rattle.std.specs.Prelude.{◌≡◌, IfOk, OnOk};
ghost use Rattle.region_split.specs.ResultLists.{with_copy};
ghost use Rattle.task_stops.specs.GatheredResults.{gathered, gathered_view, unifying_item};

use au_model::build::{binary, list_of};
use au_model::copies::copy_term;
use au_term::{FlatTerm, NoMemory, Shared, VarNo};
use clause_compile::{Item, Scope};
use std::alloc::Global;

/// Results, and the next variable number after theirs.
#[derive(Drop)]
pub(crate) struct Gathered {
    pub(crate) terms: Vec<FlatTerm>,
    pub(crate) next: VarNo,
}

/// Results with copies of records behind them, whose variables are numbered from this one on.
pub(crate) fn gather(
    alloc: Global,
    results: &[FlatTerm],
    records: &[FlatTerm],
    next: VarNo,
) -> Result<Gathered, NoMemory>
    ensures { IfOk result (λ all. gathered_view all ≡ gathered records.now (record { terms = results.now; next = next })) }
{
    let terms = copied(alloc, results)?;
    let mut all = Gathered { terms, next };
    for record in records {
        push_copy(alloc, &mut all, record)?;
    }
    Ok(all)
}

/// Adds a copy of a term. One without variables is its own copy.
fn push_copy(alloc: Global, all: &mut Gathered, term: &FlatTerm) -> Result<(), NoMemory>
    ensures { OnOk result (gathered_view all.new ≡ with_copy term.now (gathered_view all.old)) }
{
    if term.bound() == 0 {
        all.terms.push(term.copy()?)?;
        return Ok(());
    }
    let (copy, takes) = copy_term(alloc, term, all.next)?;
    let Some(next) = all.next.checked_add(takes) else {
        return Err(NoMemory);
    };
    all.terms.push(copy)?;
    all.next = next;
    Ok(())
}

fn copied(alloc: Global, terms: &[FlatTerm]) -> Result<Vec<FlatTerm>, NoMemory>
    ensures { IfOk result (λ all. all.items ≡ terms.now) }
{
    let mut all = Vec::new(alloc);
    for term in terms {
        all.push(term.copy()?)?;
    }
    Ok(all)
}

/// The goal that unifies the list of a findall with its results; a cut in it cuts to the findall's node.
pub(crate) fn list_item(
    alloc: Global,
    node: u64,
    list: &Shared,
    results: &[FlatTerm],
) -> Result<Item, NoMemory>
    ensures { IfOk result (λ item. item ≡ unifying_item node list.now results.now) }
{
    let list = list.to_term(alloc)?;
    let results = list_of(alloc, results)?;
    let goal = binary(alloc, "=", &list, &results)?;
    Ok(Item::Goal {
        term: Shared::from_term(alloc, goal)?,
        cut: Scope::Node(node),
    })
}
