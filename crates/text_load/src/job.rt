//! What a text loads to.
ghost use Rattle.std.specs.Prelude.{◌≡◌, map};
ghost use Rattle.std.specs.Arc.{arc_value};
ghost use Rattle.text_load.specs.JobView.{AreStatics, HasParts};

use crate::query::Query;
use clause_compile::Clause;
use dyn_clauses::Database;
use op_table::Ops;
use std::marker::Model;
use std::sync::Arc;

/// The clauses of the static procedures, the dynamic procedures and the operators to begin with, and the queries, which are
/// run one after another. Contracts see all four; the database has the static procedures as such.
#[derive(Drop)]
pub struct Job {
    clauses: Vec<Arc<Clause>>,
    database: Database,
    ops: Ops,
    queries: Vec<Query>,
}

/// What a job is made of.
#[derive(Drop)]
pub struct JobParts {
    pub clauses: Vec<Arc<Clause>>,
    pub database: Database,
    pub ops: Ops,
    pub queries: Vec<Query>,
}

impl Model for Job {
    ghost use Rattle.std.specs.Prelude.{map};
    ghost use Rattle.std.specs.Arc.{arc_value};
    ghost use Rattle.std.specs.Coded.{codes};
    ghost use Rattle.au_term.specs.PrefixOrder.{term_code};
    ghost use Rattle.run_model.specs.Programs.Jobs.{Job as JobTerms};
    ghost use Rattle.text_load.specs.JobView.{AreStatics};

    ghost Value = { JobTerms };

    ghost coded = { Prim.hlevel (codes, term_code) };

    ghost view = { λ j. record { clauses = map arc_value j.clauses.items; database = j.database.kept; operators = j.ops; queries = j.queries.items } };

    ghost invariant = { λ j. AreStatics j.database.statics (map arc_value j.clauses.items) };
}

impl Job {
    /// The job of these parts.
    pub(crate) fn new(
        clauses: Vec<Arc<Clause>>,
        database: Database,
        ops: Ops,
        queries: Vec<Query>,
    ) -> Job
        requires { AreStatics database.statics (map arc_value clauses.items) }
        ensures { result ≡ record { clauses = map arc_value clauses.items; database = database.kept; operators = ops; queries = queries.items } }
    {
        Job {
            clauses,
            database,
            ops,
            queries,
        }
    }

    /// The clauses of the static procedures, in the order of the text.
    pub fn clauses(&self) -> &[Arc<Clause>]
        ensures { map arc_value result.now ≡ self.now.clauses }
    {
        &self.clauses
    }

    /// The dynamic procedures.
    pub fn database(&self) -> &Database
        ensures kept { result.now.kept ≡ self.now.database }
        ensures statics { AreStatics result.now.statics self.now.clauses }
    {
        &self.database
    }

    /// The operators.
    pub fn ops(&self) -> &Ops
        ensures { result.now ≡ self.now.operators }
    {
        &self.ops
    }

    /// The queries.
    pub fn queries(&self) -> &[Query]
        ensures { result.now ≡ self.now.queries }
    {
        &self.queries
    }

    /// The parts.
    pub fn into_parts(self) -> JobParts
        ensures parts { HasParts self result }
        ensures statics { AreStatics result.database.statics self.clauses }
    {
        JobParts {
            clauses: self.clauses,
            database: self.database,
            ops: self.ops,
            queries: self.queries,
        }
    }
}
