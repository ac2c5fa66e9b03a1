//! Solutions of goals for which no clauses of the text are tried.
ghost use Rattle.std.specs.Prelude.{◌≡◌, ◌∷◌, [], MatchOption, IsTrue, ◌↔◌};

use au_term::Shared;
use binding_array::BindingCell;
use std::marker::Model;

/// One side of an equation.
#[derive(Drop)]
pub enum EquationSide {
    /// A value of the store.
    Value(BindingCell),
    /// A term, which is copied in when its solution is taken.
    Copied(Shared),
}

/// Two sides that are to be made one.
#[derive(Drop)]
pub struct Equation {
    pub left: EquationSide,
    pub right: EquationSide,
}

/// A way for a goal to hold: where its equations unify, its goals are left, which are copied in when it is taken; then the
/// clause with a number is removed, if one is named, before what follows. It takes so many new variables, numbered from the
/// next one on.
#[derive(Drop)]
pub struct Solution {
    equations: Vec<Equation>,
    goals: Vec<Shared>,
    removes: Option<u64>,
    variables: u32,
}

impl Model for Solution {
    ghost use Rattle.std.specs.Coded.{codes};
    ghost use Rattle.au_term.specs.PrefixOrder.{term_code};
    ghost use Rattle.region_split.specs.Solutions.{SolutionView};

    ghost Value = { SolutionView };

    ghost coded = { Prim.hlevel (codes, term_code) };

    ghost view = { λ s. record { equations = s.equations.items; goals = s.goals.items; removes = s.removes; variables = s.variables } };
}

impl Solution {
    /// The solution with these equations and goals.
    pub fn new(
        equations: Vec<Equation>,
        goals: Vec<Shared>,
        removes: Option<u64>,
        variables: u32,
    ) -> Solution
        ensures { result ≡ record { equations = equations.items; goals = goals.items; removes = removes; variables = variables } }
    {
        Solution {
            equations,
            goals,
            removes,
            variables,
        }
    }

    /// Its equations.
    pub fn equations(&self) -> &[Equation]
        ensures { result.now ≡ self.entry.now.equations }
    {
        &self.equations
    }

    /// Its goals.
    pub fn goals(&self) -> &[Shared]
        ensures { result.now ≡ self.entry.now.goals }
    {
        &self.goals
    }

    /// The number of the clause that is removed.
    pub fn removes(&self) -> Option<u64>
        ensures { result ≡ self.now.removes }
    {
        self.removes
    }

    /// How many new variables it takes.
    pub fn variables(&self) -> u32
        ensures { result ≡ self.now.variables }
    {
        self.variables
    }
}

/// Solutions that are to be tried one after another. Contracts see them in their order.
#[derive(Drop)]
pub struct Solutions {
    /// The next one is the last.
    turned: Vec<Solution>,
}

impl Model for Solutions {
    ghost use Rattle.std.specs.Prelude.{List, reverse};
    ghost use Rattle.std.specs.Coded.{codes};
    ghost use Rattle.au_term.specs.PrefixOrder.{term_code};
    ghost use Rattle.region_split.specs.Solutions.{SolutionView};

    ghost Value = { List SolutionView };

    ghost coded = { Prim.hlevel (codes, term_code) };

    ghost view = { λ s. reverse s.turned.items };
}

impl Solutions {
    /// These solutions.
    pub fn new(solutions: Vec<Solution>) -> Solutions
        ensures { result ≡ solutions.items }
    {
        let mut turned = solutions;
        turned.reverse();
        Solutions { turned }
    }

    /// Whether none is left.
    pub(crate) fn is_empty(&self) -> bool
        ensures { IsTrue result ↔ (self.now ≡ []) }
    {
        self.turned.is_empty()
    }

    /// Takes the first.
    pub fn take(&mut self) -> Option<Solution>
        ensures { MatchOption result ((self.old ≡ []) × (self.new ≡ self.old)) (λ solution. self.old ≡ solution ∷ self.new) }
    {
        self.turned.pop()
    }
}
