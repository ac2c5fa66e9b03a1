//! Trees that are opened for a job.
ghost use Rattle.std.specs.Prelude.{◌≡◌, [], IfOk};
ghost use Rattle.tree_core.specs.Openings.{IsFirstOf};
ghost use Rattle.scheduler.specs.JobRuns.{IsJobRun};
ghost use Rattle.scheduler.specs.Driving.{IsDriven};

use crate::JobRun;
use au_term::NoMemory;
use effect_gate::World;
use goal_kinds::GoalKinds;
use region_split::Text;
use std::alloc::Global;
use std::sync::Arc;
use task_world::query_goals;
use text_load::{Job, JobParts, Query};
use tree_core::{JobBrand, QueryGoals, Tree};

/// The tree of a job before the first event, and what the job is run with.
pub fn open<J: JobBrand>(
    alloc: Global,
    job: Job,
    budget: u64,
    window: u64,
) -> Result<(Tree<J>, JobRun), NoMemory>
    requires { J.job ≡ job }
    ensures history { IfOk result (λ opened. opened.0.history ≡ record { job = job; budget = budget; window = window; events = [] }) }
    ensures driven { IfOk result (λ opened. IsDriven opened.0.history) }
    ensures run { IfOk result (λ opened. IsJobRun opened.0.history opened.1) }
{
    let JobParts {
        clauses,
        database,
        ops,
        queries,
    } = job.into_parts();
    let first = first_goals(alloc, &queries)?;
    let tree = Tree::open(alloc, first, budget, window)?;
    let text = Arc::new(alloc, Text::new(alloc, clauses)?)?;
    let code = text.code()?;
    let kinds = GoalKinds::new(alloc, &code)?;
    let out = Vec::new(alloc);
    let world = World { out, database, ops };
    let asked = queries.len().min(1);
    let run = JobRun {
        world,
        text,
        kinds,
        queries,
        asked,
    };
    Ok((tree, run))
}

/// From what the node of the first query is made, if there is one.
fn first_goals(alloc: Global, queries: &[Query]) -> Result<Option<QueryGoals>, NoMemory>
    ensures { IfOk result (IsFirstOf queries.now) }
{
    match queries.first() {
        Some(query) => Ok(Some(query_goals(alloc, query, 0)?)),
        None => Ok(None),
    }
}
