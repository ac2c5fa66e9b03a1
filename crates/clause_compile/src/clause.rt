//! Clauses as they are kept, and terms that are called.
ghost use Rattle.std.specs.Prelude.{◌≡◌, ◌<◌, ◌≤◌, ◌+◌, ◌^◌, ◌++◌, IfOk, Some, true, map};
ghost use Rattle.std.specs.Arc.{arc_value};
ghost use Rattle.au_term.specs.PrefixOrder.{IsTerm};
ghost use Rattle.au_term.specs.Shifted.{shifted, IsShiftablePlace};
ghost use Rattle.au_model.specs.Terms.Forms.{is_callable};
ghost use Rattle.run_model.specs.Programs.Bodies.{body_of, clause_goals_of};
ghost use Rattle.clause_compile.specs.GoalPlaces.{subterms_at, AreGoalsAt, ArePlaces};
ghost use Rattle.clause_compile.specs.CompiledClauses.{clause_bound, goal_items, IsCompiled, IsCalledAs};
ghost use Rattle.clause_compile.specs.ClauseInvariant.{numbers_from};
ghost use Rattle.run_model.specs.Programs.Clauses.{clause_variables, numbered};

use crate::body::{clause_places, goal_places, normal_body};
use crate::goal_list::Goals;
use crate::item::{Item, Scope};
use crate::names::is_plain_goal;
use au_model::copies::Renaming;
use au_term::{Cell, FlatTerm, NoMemory, Shared, VarNo};
use std::alloc::{AllocFailed, Global};
use std::marker::Model;
use std::sync::Arc;

/// A clause: its head, its body with a call of each variable goal, where the body's goals are, and how many variables
/// it has. Contracts see the head and the body.
#[derive(Drop)]
pub struct Clause {
    head: Arc<FlatTerm>,
    body: Arc<FlatTerm>,
    goals: Vec<usize>,
    vars: VarNo,
}

impl Model for Clause {
    ghost use Rattle.std.specs.Arc.{arc_value};
    ghost use Rattle.std.specs.Coded.{codes};
    ghost use Rattle.au_term.specs.PrefixOrder.{term_code};
    ghost use Rattle.run_model.specs.Programs.Clauses.{Clause as ClauseTerms};

    ghost Value = { ClauseTerms };

    ghost coded = { Prim.hlevel (codes, term_code) };

    ghost use Rattle.clause_compile.specs.ClauseInvariant.{IsClauseInvariant};

    ghost view = { λ c. record { head = arc_value c.head; body = arc_value c.body } };

    ghost invariant = { λ c. IsClauseInvariant (arc_value c.head) (arc_value c.body) c.goals.items c.vars };
}

/// A part of a clause.
#[derive(Clone, Copy, Debug, PartialEq, Eq)]
pub enum Part {
    Head,
    Body,
}

/// Why terms make no clause (ISO/IEC 13211-1, 8.9.1.3), or a term that is called no goals (7.8.3.3).
#[derive(Clone, Copy, Debug, PartialEq, Eq)]
pub enum ClauseRefusal {
    /// The head is a variable.
    NoHead,
    /// The head is an integer, or the body is no body. The whole part is the culprit.
    NotCallable(Part),
    NoMemory,
}

impl From<NoMemory> for ClauseRefusal {
    ghost use Rattle.clause_compile.specs.declared.clause.ClauseRefusal.TheVariants.{NoMemory as NoMemoryLeft};

    ghost from_gives = { λ _ e. e ≡ NoMemoryLeft };

    fn from(_error: NoMemory) -> ClauseRefusal {
        ClauseRefusal::NoMemory
    }
}

impl<T: Drop> From<AllocFailed<T>> for ClauseRefusal {
    ghost use Rattle.clause_compile.specs.declared.clause.ClauseRefusal.TheVariants.{NoMemory as NoMemoryLeft};

    ghost from_gives = { λ _ e. e ≡ NoMemoryLeft };

    fn from(_error: AllocFailed<T>) -> ClauseRefusal {
        ClauseRefusal::NoMemory
    }
}

/// The clause of a head and a body, as it is kept (ISO/IEC 13211-1, 7.6): with its variables numbered from 0.
pub fn compile(
    alloc: Global,
    head: &FlatTerm,
    body: &FlatTerm,
) -> Result<Arc<Clause>, ClauseRefusal>
    ensures { IsCompiled head.now body.now result }
{
    match head.top() {
        Cell::Var(_) => return Err(ClauseRefusal::NoHead),
        Cell::Int(_) => return Err(ClauseRefusal::NotCallable(Part::Head)),
        _ => {}
    }
    let Some(kept) = normal_body(alloc, body)? else {
        return Err(ClauseRefusal::NotCallable(Part::Body));
    };
    Ok(Arc::new(alloc, numbered_clause(alloc, head, &kept)?)?)
}

/// The clause of a head that is callable and a body that is kept as it is, with its variables numbered.
fn numbered_clause(alloc: Global, head: &FlatTerm, body: &FlatTerm) -> Result<Clause, NoMemory>
    requires head { is_callable head.now ≡ true }
    requires body { body_of body.now ≡ Some body.now }
    ensures { IfOk result (λ clause. clause ≡ numbered (record { head = head.now; body = body.now })) }
{
    let head = Renaming::new(alloc).copy(alloc, head, 0)?;
    let body = head.renaming.copy(alloc, body, 0)?;
    let goals = clause_places(alloc, &body.term)?;
    let vars = body.renaming.count();
    Ok(Clause {
        head: Arc::new(alloc, head.term)?,
        body: Arc::new(alloc, body.term)?,
        goals,
        vars,
    })
}

impl Clause {
    /// The head.
    pub fn head(&self) -> &FlatTerm
        ensures head { result.now ≡ self.now.head }
        ensures callable { is_callable result.now ≡ true }
    {
        &self.head
    }

    /// The body.
    pub fn body(&self) -> &FlatTerm
        ensures body { result.now ≡ self.now.body }
        ensures kept { body_of result.now ≡ Some result.now }
    {
        &self.body
    }

    /// Where the goals of the body are in it.
    pub(crate) fn goal_places(&self) -> &[usize]
        ensures { AreGoalsAt self.entry.now.body result.now (clause_goals_of self.entry.now.body) }
    {
        &self.goals
    }

    /// How many variables it has. They are numbered from 0 in order of first occurrence, those of the head first.
    pub fn vars(&self) -> VarNo
        ensures numbered { clause_variables self.now ≡ numbers_from 0 result }
        ensures below { clause_bound self.now ≤ result }
    {
        self.vars
    }

    /// The head, with `base` added to its variables.
    pub fn shifted_head(&self, base: VarNo) -> Result<Shared, NoMemory>
        requires { base + clause_bound self.now < 2 ^ 64 }
        ensures { IfOk result (λ head. head ≡ shifted base self.now.head) }
    {
        Ok(Shared::new(self.head.clone()?, 0, base))
    }

    /// The body, with `base` added to its variables.
    pub fn shifted_body(&self, base: VarNo) -> Result<Shared, NoMemory>
        requires { base + clause_bound self.now < 2 ^ 64 }
        ensures { IfOk result (λ body. body ≡ shifted base self.now.body) }
    {
        Ok(Shared::new(self.body.clone()?, 0, base))
    }

    /// The goals of the body, with `base` added to their variables, before the items that follow.
    pub fn goals(
        &self,
        alloc: Global,
        base: VarNo,
        cut: Scope,
        rest: &Goals,
    ) -> Result<Goals, NoMemory>
        requires { base + clause_bound self.now < 2 ^ 64 }
        ensures { IfOk result (λ goals. goals ≡ goal_items cut (map (shifted base) (clause_goals_of self.now.body)) ++ rest.now) }
    {
        goals_before(alloc, &self.body, &self.goals, base, cut, rest)
    }
}

/// The goals of a term that is called, before the items that follow (ISO/IEC 13211-1, 7.8.3).
pub fn body_goals(
    alloc: Global,
    body: &Shared,
    cut: Scope,
    rest: &Goals,
) -> Result<Goals, ClauseRefusal>
    ensures { IsCalledAs body.now cut rest.now result }
{
    if is_plain_goal(&body.top()?) {
        let term = body.share()?;
        return Ok(rest.push(alloc, Item::Goal { term, cut })?);
    }
    let Some(kept) = normal_body(alloc, &body.to_term(alloc)?)? else {
        return Err(ClauseRefusal::NotCallable(Part::Body));
    };
    let places = goal_places(alloc, &kept)?;
    // The proof reads off the cells that all variables are below the greatest number.
    let _cells = kept.cells();
    let skeleton = Arc::new(alloc, kept)?;
    Ok(goals_before(alloc, &skeleton, &places, 0, cut, rest)?)
}

/// The goals at these places of a term, with `base` added to their variables, before the items that follow.
fn goals_before(
    alloc: Global,
    skeleton: &Arc<FlatTerm>,
    places: &[usize],
    base: VarNo,
    cut: Scope,
    rest: &Goals,
) -> Result<Goals, NoMemory>
    requires { ArePlaces (arc_value skeleton.now) base places.now }
    ensures { IfOk result (λ goals. goals ≡ goal_items cut (map (shifted base) (subterms_at (arc_value skeleton.now) places.now)) ++ rest.now) }
{
    let mut goals = rest.share()?;
    let mut left = places.len();
    while left > 0 {
        left -= 1;
        let term = Shared::new(skeleton.clone()?, places[left], base);
        goals = goals.push(alloc, Item::Goal { term, cut })?;
    }
    Ok(goals)
}
