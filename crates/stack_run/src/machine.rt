//! A run, between two inferences.
ghost use Rattle.std.specs.Prelude.{◌≡◌, IfOk, OnOk, map};
ghost use Rattle.std.specs.Arc.{arc_value};
ghost use Rattle.stack_run.specs.MachineView.{next_halt, IsNextHeld, ComesTo, KeepsOthers};

use au_term::{FlatTerm, NoMemory};
use clause_compile::Clause;
use effect_gate::World;
use goal_kinds::GoalKinds;
use region_run::{Ran, Stop, run};
use region_split::{Position, Region, Text};
use std::alloc::Global;
use std::sync::Arc;
use text_load::Query;

/// What a run goes by: the text with what its goals are, and the queries, which are run one after another.
#[derive(Drop)]
pub(crate) struct Program {
    pub(crate) text: Arc<Text>,
    pub(crate) kinds: GoalKinds,
    pub(crate) queries: Vec<Query>,
}

/// What is left of the query that was asked last, how many queries were asked and answers written, and the world with what
/// is written and not yet put out.
#[derive(Drop)]
pub(crate) struct Machine {
    pub(crate) region: Region,
    pub(crate) asked: usize,
    pub(crate) answers: u64,
    pub(crate) world: World,
}

/// How a run goes on.
#[derive(Drop)]
pub(crate) enum Next {
    /// At a position, or with what the choice points have left.
    Runs(Option<Position>),
    /// With the end of its query, by a ball that no catch took.
    Uncaught(FlatTerm),
    /// Not at all; with a status where it was halted.
    Over(Option<u8>),
}

impl Next {
    /// The status by which the run was halted.
    pub(crate) fn halted(&self) -> Option<u8>
        ensures { result ≡ next_halt self.now }
    {
        match self {
            Next::Over(halted) => *halted,
            _ => None,
        }
    }
}

impl Program {
    /// The program of these clauses and queries.
    pub(crate) fn new(
        alloc: Global,
        clauses: Vec<Arc<Clause>>,
        queries: Vec<Query>,
    ) -> Result<Program, NoMemory>
        ensures clauses { IfOk result (λ p. (arc_value p.text).clauses ≡ map arc_value clauses.items) }
        ensures kinds { IfOk result (λ p. p.kinds ≡ (arc_value p.text).code.names) }
        ensures queries { IfOk result (λ p. p.queries.items ≡ queries.items) }
    {
        let text = Arc::new(alloc, Text::new(alloc, clauses)?)?;
        let code = text.code()?;
        let kinds = GoalKinds::new(alloc, &code)?;
        Ok(Program {
            text,
            kinds,
            queries,
        })
    }
}

impl Machine {
    /// Runs on for at most so many inferences, up to what the region can't take by itself.
    pub(crate) fn go_on(
        &mut self,
        alloc: Global,
        kinds: &GoalKinds,
        next: Next,
        limit: u64,
    ) -> Result<Ran, NoMemory>
        requires next { IsNextHeld self.old.region next }
        requires kinds { kinds.now ≡ self.old.region.text.code.names }
        ensures comes { IfOk result (ComesTo self.old self.new next limit) }
        ensures others { OnOk result (KeepsOthers self.old self.new) }
    {
        match next {
            Next::Runs(start) => run(&mut self.region, alloc, kinds, start, limit),
            Next::Uncaught(ball) => Ok(Ran {
                taken: 0,
                stop: Stop::QueryDone(Some(ball)),
            }),
            Next::Over(_) => Ok(Ran {
                taken: 0,
                stop: Stop::AllDone,
            }),
        }
    }
}
