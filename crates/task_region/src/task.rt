//! The region of a task.
ghost use Rattle.std.specs.Prelude.{◌≡◌, ◌≤◌, IfOk, OnOk, length, map};
ghost use Rattle.au_model.specs.Terms.Each.{Each};
ghost use Rattle.region_split.specs.QueryEnds.{IsEnd};
ghost use Rattle.task_region.specs.DeferredItems.{item_of, IsDeferredOver};
ghost use Rattle.task_region.specs.TaskStarts.{StartsTask};
ghost use Rattle.task_region.specs.TaskStops.{RunsTask};

use crate::deferred::DeferredItem;
use crate::floor::lay_floor;
use crate::loading::leave_rest;
use crate::running::{TaskRan, TaskStop, run_on};
use crate::start::TaskStart;
use au_term::NoMemory;
use goal_kinds::GoalKinds;
use region_split::{Position, Region};
use std::alloc::Global;
use std::marker::Model;

/// A region over a bare floor, with what it starts with, and where it goes on: nowhere once nothing is left of its run.
#[derive(Drop)]
pub struct TaskRegion {
    pub(crate) region: Region,
    pub(crate) start: TaskStart,
    pub(crate) next: Option<Position>,
}

impl Model for TaskRegion {
    ghost use Rattle.std.specs.Coded.{codes};
    ghost use Rattle.au_term.specs.PrefixOrder.{term_code};
    ghost use Rattle.task_region.specs.TaskViews.{TaskView, view_of_task};
    ghost use Rattle.task_region.specs.TaskStandings.{IsTask};

    ghost Value = { TaskView };

    ghost coded = { Prim.hlevel (codes, term_code) };

    ghost view = { λ t. view_of_task t.region t.start t.next };

    ghost invariant = { λ t. IsTask (view_of_task t.region t.start t.next) };
}

impl TaskRegion {
    /// The region of a task whose branch has so many nodes, in a region that has no choice points but ends of queries for some of them
    /// and in whose store the bindings of the branch are made: all that its alternative had left to do is deferred.
    pub fn new(
        region: Region,
        floor: u32,
        deferred: Vec<DeferredItem>,
    ) -> Result<TaskRegion, NoMemory>
        requires ends { Each (λ c. IsEnd c.alternatives) region.choices }
        requires few { length region.choices ≤ floor }
        requires deferred { Each (IsDeferredOver region.store.now.next floor) (map item_of deferred.items) }
        ensures starts { IfOk result (StartsTask region floor (map item_of deferred.items)) }
    {
        let mut region = region;
        let variables = region.store().next();
        lay_floor(&mut region, floor)?;
        let position = leave_rest(&mut region, 0)?;
        let start = TaskStart {
            floor,
            variables,
            deferred,
        };
        Ok(TaskRegion {
            region,
            start,
            next: Some(position),
        })
    }

    /// Runs on for at most so many inferences. The kinds are those of the text's names. A task of whose run nothing is left
    /// is at its end, and so is one that ran out of memory.
    pub fn run(&mut self, alloc: Global, kinds: &GoalKinds, limit: u64) -> Result<TaskRan, NoMemory>
        requires { kinds.now ≡ self.old.region.text.code.names }
        ensures { IfOk result (RunsTask self.old self.new limit) }
    {
        let Some(start) = self.next else {
            return Ok(TaskRan {
                taken: 0,
                stop: TaskStop::Empty,
            });
        };
        self.next = None;
        let (ran, next) = run_on(&mut self.region, alloc, kinds, &self.start, start, limit)?;
        self.next = next;
        Ok(ran)
    }
}
