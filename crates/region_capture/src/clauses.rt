//! Clauses that are left to be tried.
ghost use Rattle.std.specs.Prelude.{◌≡◌, ◌<◌, ◌++◌, ◌∷◌, IfOk, OnOk, length, option_to_list};
ghost use Rattle.cell_store.specs.StoreView.{IsValueIn};
ghost use Rattle.clause_index.specs.Cursors.{IsCursorOf, numbers_left};
ghost use Rattle.region_split.specs.Regions.{IsPositionIn};
ghost use Rattle.region_capture.specs.CaptureSteps.{CapturesClause, CapturesClauses};

use crate::captured::CapturedAlternative;
use crate::items::CapturedItems;
use crate::positions::capture_reached;
use au_term::NoMemory;
use clause_index::Cursor;
use region_split::{Alternatives, Region, Trial};
use std::alloc::Global;

/// The alternatives of a clause that is to be tried for a goal, and of those that are left after it.
pub(crate) fn capture_clauses(
    region: &mut Region,
    alloc: Global,
    first: Trial,
    left: Cursor,
    items: &mut CapturedItems,
) -> Result<Vec<CapturedAlternative>, NoMemory>
    requires clause { first.clause < length region.old.text.clauses }
    requires goal { IsValueIn region.old.store first.goal }
    requires after { IsPositionIn region.old first.after }
    requires cursor { IsCursorOf region.old.text.heads left }
    ensures { IfOk result (λ taken. CapturesClauses region.old region.new items.old items.new first (numbers_left region.old.text.heads left) taken.items) }
{
    let mut alternatives = Vec::new(alloc);
    let mut trial = first;
    let mut left = left;
    loop {
        let captured = capture_clause(region, alloc, trial, items)?;
        push_captured(&mut alternatives, captured)?;
        let Some(clause) = region.text().take(&mut left) else {
            return Ok(alternatives);
        };
        trial.clause = clause;
    }
}

/// The alternative of a clause, if its head unifies with the goal. It is tried over a choice point of its own, and undone.
fn capture_clause(
    region: &mut Region,
    alloc: Global,
    trial: Trial,
    items: &mut CapturedItems,
) -> Result<Option<CapturedAlternative>, NoMemory>
    requires clause { trial.clause < length region.old.text.clauses }
    requires goal { IsValueIn region.old.store trial.goal }
    requires after { IsPositionIn region.old trial.after }
    ensures { IfOk result (CapturesClause region.old region.new items.old items.new trial) }
{
    region.ends_are_oldest();
    let cut = region.scope()?;
    region.push_choice(Alternatives::Elsewhere, trial.after)?;
    let reached = region.try_clause(trial, cut)?;
    let captured = capture_reached(region, alloc, cut, reached, items)?;
    let _mark = region.take_newest();
    Ok(captured)
}

/// Puts an alternative to the others, if there is one.
pub(crate) fn push_captured(
    alternatives: &mut Vec<CapturedAlternative>,
    captured: Option<CapturedAlternative>,
) -> Result<(), NoMemory>
    ensures { OnOk result (alternatives.new.items ≡ alternatives.old.items ++ option_to_list captured) }
{
    match captured {
        Some(alternative) => alternatives.push(alternative)?,
        None => {}
    }
    Ok(())
}
