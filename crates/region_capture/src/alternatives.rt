//! Choice points that are taken off.
ghost use Rattle.std.specs.Prelude.{◌≡◌, ◌<◌, ◌∷◌, ◌≤◌, [], IfOk, length};
ghost use Rattle.region_split.specs.ChoicePoints.{IsMarkOf};
ghost use Rattle.region_split.specs.QueryEnds.{IsEnd};
ghost use Rattle.region_split.specs.Regions.{AreAlternativesIn, IsPositionIn};
ghost use Rattle.region_capture.specs.CaptureSteps.{CapturesFollowing, CapturesGroup, CapturesNewest, HasNewestBelow, HasOwnOnTop};

use crate::captured::{CapturedAlternative, CapturedChoice, CapturedKind};
use crate::clauses::capture_clauses;
use crate::items::CapturedItems;
use crate::levels::bindings_for_choice;
use crate::positions::capture_items;
use crate::seen::SeenVariables;
use crate::solutions::capture_solutions;
use crate::writing::written_term;
use au_term::{Bindings, NoMemory, VarNo};
use branch_bindings::laws::extensions_compose;
use region_split::{Alternatives, ChoicePoint, Position, Region, Trial};
use std::alloc::Global;

/// Takes off the newest choice point, which is no end of a query and has others under it. Of the bindings under it those are written
/// that it or what was seen can reach.
pub(crate) fn capture_newest(
    region: &mut Region,
    alloc: Global,
    items: &mut CapturedItems,
    seen: SeenVariables,
) -> Result<(CapturedChoice, SeenVariables), NoMemory>
    requires many { 1 < length region.old.choices }
    requires own { HasOwnOnTop region.old }
    requires long { HasNewestBelow region.old (length seen) }
    ensures { IfOk result (λ c. CapturesNewest region.old region.new items.old items.new seen c.1 c.0) }
{
    region.ends_are_oldest();
    let ChoicePoint {
        alternatives,
        after,
        frames: _,
    } = region.take_newest();
    region.ends_are_oldest();
    let under = region.height() - 1;
    let next = u64::from(region.store().next());
    let (kind, alternatives) = capture_group(region, alloc, alternatives, after, items)?;
    let (below, seen) = bindings_for_choice(
        region.store(),
        alloc,
        under,
        items,
        &kind,
        &alternatives,
        seen,
    )?;
    let choice = CapturedChoice {
        kind,
        alternatives,
        below,
        next,
    };
    Ok((choice, seen))
}

/// The kind and the alternatives of a choice point that was taken off and goes on at a position.
fn capture_group(
    region: &mut Region,
    alloc: Global,
    alternatives: Alternatives,
    after: Position,
    items: &mut CapturedItems,
) -> Result<(CapturedKind, Vec<CapturedAlternative>), NoMemory>
    requires there { AreAlternativesIn region.old alternatives }
    requires own { IsEnd alternatives → ⊥ }
    requires after { IsPositionIn region.old after }
    ensures { IfOk result (λ g. CapturesGroup region.old region.new items.old items.new alternatives after g.0 g.1.items) }
{
    // The proof reads off that nothing extends what is bound in a sound store.
    extensions_compose();
    let next = u64::from(region.store().next());
    match alternatives {
        Alternatives::Clauses { goal, clause, left } => {
            let first = Trial {
                goal,
                clause,
                after,
            };
            let clauses = capture_clauses(region, alloc, first, left, items)?;
            Ok((CapturedKind::Choice, clauses))
        }
        Alternatives::Solutions(left) => {
            let solutions = capture_solutions(region, alloc, left, after, items)?;
            Ok((CapturedKind::Choice, solutions))
        }
        Alternatives::Elsewhere => {
            let following = capture_following(region, alloc, after, next, items)?;
            Ok((CapturedKind::Choice, following))
        }
        Alternatives::Catch { catcher, recovery } => {
            let catcher = written_term(region.store(), alloc, catcher)?;
            let recovery = written_term(region.store(), alloc, recovery)?;
            let following = capture_following(region, alloc, after, next, items)?;
            Ok((CapturedKind::Catch { catcher, recovery }, following))
        }
        Alternatives::Findall { list, results } => {
            let list = written_term(region.store(), alloc, list)?;
            let next = results.next();
            let results = results.into_terms();
            let following = capture_following(region, alloc, after, next, items)?;
            Ok((CapturedKind::Findall { list, results }, following))
        }
        Alternatives::QueryEnd => unreachable!(),
    }
}

/// The alternative that goes on at a position with a next variable number, and no other.
fn capture_following(
    region: &Region,
    alloc: Global,
    after: Position,
    next: VarNo,
    items: &mut CapturedItems,
) -> Result<Vec<CapturedAlternative>, NoMemory>
    requires position { IsPositionIn region.now after }
    ensures { IfOk result (λ taken. CapturesFollowing region.now items.old items.new after next taken.items) }
{
    let first = capture_items(region, alloc, after, items)?;
    let bindings = Bindings::new(alloc);
    let alternative = CapturedAlternative {
        first,
        bindings,
        next,
    };
    Ok(vec![in alloc; alternative]?)
}
