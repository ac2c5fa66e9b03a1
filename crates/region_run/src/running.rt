//! Runs of a region.
ghost use Rattle.std.specs.Prelude.{◌≡◌, IfOk, OnOk, length};
ghost use Rattle.region_split.specs.ClauseTrials.{IsOptionalPosition};
ghost use Rattle.region_run.specs.Runs.{Runs, stop_of};

use crate::compounds::{Taken, take_compound};
use crate::inference::infer;
use au_term::{FlatTerm, NoMemory};
use goal_kinds::GoalKinds;
use region_control::{AfterGoal, Ahead, GoalPlace, look_ahead};
use region_split::{FrameItem, Position, Region};
use std::alloc::Global;

/// Why a region stopped.
#[derive(Drop)]
pub enum Stop {
    /// As many inferences were taken as were allowed, and this goal is next.
    Limit(FrameItem, GoalPlace),
    /// This goal, which looks at the world or changes it, is next.
    World(FrameItem, GoalPlace),
    /// The removal of the clause with a number is next, and where it goes on.
    Removal(u64, Position),
    /// Nothing is left to do at a position: the query holds there.
    Answer(Position),
    /// The query has no solution left, or a ball that no catch took, its variables numbered from 0.
    QueryDone(Option<FlatTerm>),
    /// No choice point is left.
    AllDone,
}

/// How far a region came, in inferences, and why it stopped.
#[derive(Drop)]
pub struct Ran {
    pub taken: u64,
    pub stop: Stop,
}

/// Runs on at a position, or with what the choice points have left, for at most so many inferences. The kinds are those of
/// the text's names.
pub fn run(
    region: &mut Region,
    alloc: Global,
    kinds: &GoalKinds,
    start: Option<Position>,
    limit: u64,
) -> Result<Ran, NoMemory>
    requires start { IsOptionalPosition region.old (length region.old.choices) start }
    requires kinds { kinds.now ≡ region.old.text.code.names }
    ensures runs { IfOk result (Runs region.old region.new start limit) }
    ensures text { OnOk result (region.new.text ≡ region.old.text) }
    ensures floor { OnOk result (region.new.store.floor ≡ region.old.store.floor) }
{
    let mut next = start;
    let mut taken = 0;
    while taken < limit {
        let (item, place, after) = match take_compound(region, alloc, kinds, next)? {
            Taken::Called(position) => {
                next = position;
                taken += 1;
                continue;
            }
            Taken::Goal(item, place, after) => (item, place, after),
            Taken::Nothing(start) => match look_ahead(region, alloc, start)? {
                Ahead::Goal(item, place) => {
                    (item, place, infer(region, alloc, kinds, item, place)?)
                }
                ahead => return Ok(stopped(taken, ahead)),
            },
        };
        next = match after {
            AfterGoal::At(position) => Some(position),
            AfterGoal::Failed => None,
            AfterGoal::Uncaught(ball) => {
                let stop = Stop::QueryDone(Some(Box::into_inner(ball)));
                return Ok(Ran {
                    taken: taken + 1,
                    stop,
                });
            }
            AfterGoal::AsksWorld => {
                let stop = Stop::World(item, place);
                return Ok(Ran { taken, stop });
            }
        };
        taken += 1;
    }
    let ahead = look_ahead(region, alloc, next)?;
    Ok(stopped(taken, ahead))
}

/// How far a region came that takes no more goal.
fn stopped(taken: u64, ahead: Ahead) -> Ran
    ensures taken { result.taken ≡ taken }
    ensures stop { result.stop ≡ stop_of ahead }
{
    let stop = match ahead {
        Ahead::Goal(item, place) => Stop::Limit(item, place),
        Ahead::Removal(number, after) => Stop::Removal(number, after),
        Ahead::Answer(position) => Stop::Answer(position),
        Ahead::QueryDone => Stop::QueryDone(None),
        Ahead::AllDone => Stop::AllDone,
    };
    Ran { taken, stop }
}
