//! Queries.
ghost use Rattle.std.specs.Prelude.{◌≡◌, map};
ghost use Rattle.run_model.specs.Programs.Jobs.{query_bound};
ghost use Rattle.clause_compile.specs.CompiledClauses.{goal_items};
ghost use Rattle.clause_compile.specs.declared.item.Scope.TheVariants.{Local};
ghost use Rattle.text_load.specs.QueryView.{query_meant, IsQueryInvariant};
ghost use Rattle.au_model.specs.Terms.Named.{variable_meant};

use au_model::VarName;
use au_term::VarNo;
use clause_compile::Goals;
use std::marker::Model;

/// A query: its goals, its named variables in order of first occurrence, and the least number above all of its
/// variables. Contracts see the goals' terms and the names.
#[derive(Drop)]
pub struct Query {
    goals: Goals,
    names: Vec<VarName>,
    vars: VarNo,
}

impl Model for Query {
    ghost use Rattle.std.specs.Coded.{codes};
    ghost use Rattle.au_term.specs.PrefixOrder.{term_code};
    ghost use Rattle.run_model.specs.Programs.Jobs.{Query as QueryTerms};
    ghost use Rattle.text_load.specs.QueryView.{query_meant, IsQueryInvariant};

    ghost Value = { QueryTerms };

    ghost coded = { Prim.hlevel (codes, term_code) };

    ghost view = { λ q. query_meant q.goals q.names.items };

    ghost invariant = { λ q. IsQueryInvariant q.goals q.names.items q.vars };
}

impl Query {
    /// A query of these goals and named variables.
    pub(crate) fn new(goals: Goals, names: Vec<VarName>, vars: VarNo) -> Query
        requires { IsQueryInvariant goals names.items vars }
        ensures { result ≡ query_meant goals names.items }
    {
        Query { goals, names, vars }
    }

    /// The goals, whose cuts keep the query's end alone.
    pub fn goals(&self) -> &Goals
        ensures { result.now ≡ goal_items (Local 0) self.now.goals }
    {
        &self.goals
    }

    /// The named variables.
    pub fn names(&self) -> &[VarName]
        ensures { map variable_meant result.now ≡ self.now.names }
    {
        &self.names
    }

    /// The least number above all variables.
    pub fn vars(&self) -> VarNo
        ensures { result ≡ query_bound self.now }
    {
        self.vars
    }
}
