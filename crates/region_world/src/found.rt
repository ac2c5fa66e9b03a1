//! Clauses that were found, as solutions: those of a dynamic procedure that is called (ISO/IEC 13211-1, 7.7.10), and those with
//! which a head and a body are unified (8.8.1 and 8.9.3).
ghost use Rattle.std.specs.Prelude.{◌≡◌, ◌+◌, ◌^◌, ◌<◌, List, map, IfOk};
ghost use Rattle.au_term.specs.Shifted.{shifted};
ghost use Rattle.run_model.specs.Goals.Outcomes.{Reply};
ghost use Rattle.run_model.specs.Programs.Bodies.{clause_goals_of};
ghost use Rattle.run_model.specs.Programs.Databases.{NumberedClause};
ghost use Rattle.clause_compile.specs.CompiledClauses.{clause_bound, shown};
ghost use Rattle.cell_store.specs.StoreView.{IsValueIn, meaning};
ghost use Rattle.effect_gate.specs.Effects.{AreFound, AreFoundBy};
ghost use Rattle.region_control.specs.GoalForms.{IsFormOf};
ghost use Rattle.region_world.specs.AskedEffects.{AsksWorld};
ghost use Rattle.region_world.specs.FoundSolutions.{AreRemovalParts, HasFound, IsMatchingIn, clause_unified, found_solution, removal_of};

use au_model::build::atom;
use au_term::{NoMemory, Shared, VarNo};
use binding_array::BindingCell;
use cell_store::Store;
use clause_compile::{Clause, ClauseId, Effect, Goals, Item, Scope};
use region_control::sides::sides;
use region_control::{GoalForm, argument};
use region_split::{Equation, EquationSide, Solution, Solutions};
use std::alloc::Global;
use std::sync::Arc;

/// What the clauses that were found are unified with.
#[derive(Drop)]
pub(crate) enum Matching {
    /// A goal, with their heads: their bodies go on.
    Goal(BindingCell),
    /// A head and a body, with theirs, and whether each is removed.
    Parts {
        head: BindingCell,
        body: EquationSide,
        removes: bool,
    },
}

/// What the clauses that were found for the effect of a goal are unified with.
pub(crate) fn matching_of(
    alloc: Global,
    store: &Store,
    effect: &Effect,
    goal: BindingCell,
    form: GoalForm,
) -> Result<Matching, NoMemory>
    requires goal { IsValueIn store.now goal }
    requires form { IsFormOf store.now goal form }
    requires asks { AsksWorld (meaning store.now goal) effect.now }
    requires found { HasFound effect.now store.now.now.next }
    ensures there { IfOk result (IsMatchingIn store.now) }
    ensures unifies { IfOk result (λ m. (reply : Reply) (found : List NumberedClause) → AreFoundBy effect.now store.now.now.next reply found → AreFound (clause_unified store.now m) reply found) }
{
    match effect {
        Effect::Call(_) => Ok(Matching::Goal(goal)),
        Effect::Retract(_) => removal_parts(alloc, store, argument(store, form.arguments, 0)),
        Effect::Clause(_, _) => Ok(Matching::Parts {
            head: argument(store, form.arguments, 0),
            body: EquationSide::Value(argument(store, form.arguments, 1)),
            removes: false,
        }),
        _ => unreachable!(),
    }
}

/// What is unified with clauses that are removed: the head and the body of a clause, `true` where it has none.
fn removal_parts(alloc: Global, store: &Store, clause: BindingCell) -> Result<Matching, NoMemory>
    requires { IsValueIn store.now clause }
    ensures there { IfOk result (IsMatchingIn store.now) }
    ensures parts { IfOk result (AreRemovalParts store.now (meaning store.now clause)) }
{
    if let Some((head, body)) = sides(store, clause, ":-") {
        return Ok(Matching::Parts {
            head,
            body: EquationSide::Value(body),
            removes: true,
        });
    }
    Ok(Matching::Parts {
        head: clause,
        body: EquationSide::Copied(Shared::from_term(alloc, atom(alloc, "true")?)?),
        removes: true,
    })
}

/// A solution for each clause, whose variables are numbered from `base` on.
pub(crate) fn found_solutions(
    alloc: Global,
    found: &[(ClauseId, Arc<Clause>)],
    matching: &Matching,
    base: u32,
) -> Result<Solutions, NoMemory>
    ensures { IfOk result (λ solutions. solutions ≡ map (found_solution matching.now base) (map shown found.now)) }
{
    let mut solutions = Vec::new(alloc);
    for found in found {
        solutions.push(solution_of(alloc, found.0, &found.1, matching, base)?)?;
    }
    Ok(Solutions::new(solutions))
}

/// The solution of a clause.
fn solution_of(
    alloc: Global,
    id: ClauseId,
    clause: &Clause,
    matching: &Matching,
    base: u32,
) -> Result<Solution, NoMemory>
    ensures { IfOk result (λ solution. solution ≡ found_solution matching.now base (record { number = id.0; clause = clause.now })) }
{
    let Ok(variables) = u32::try_from(clause.vars()) else {
        return Err(NoMemory);
    };
    let base = VarNo::from(base);
    let mut equations = Vec::new(alloc);
    let right = EquationSide::Copied(clause.shifted_head(base)?);
    match matching {
        Matching::Goal(goal) => {
            let left = EquationSide::Value(*goal);
            equations.push(Equation { left, right })?;
            let goals = shifted_goals(alloc, clause, base)?;
            Ok(Solution::new(equations, goals, None, variables))
        }
        Matching::Parts {
            head,
            body,
            removes,
        } => {
            let left = EquationSide::Value(*head);
            equations.push(Equation { left, right })?;
            let left = shared_side(body)?;
            let right = EquationSide::Copied(clause.shifted_body(base)?);
            equations.push(Equation { left, right })?;
            let removed = removal(*removes, id);
            Ok(Solution::new(equations, Vec::new(alloc), removed, variables))
        }
    }
}

/// The goals of a clause's body, with `base` added to their variables.
fn shifted_goals(alloc: Global, clause: &Clause, base: VarNo) -> Result<Vec<Shared>, NoMemory>
    requires { base + clause_bound clause.now < 2 ^ 64 }
    ensures { IfOk result (λ goals. goals.items ≡ map (shifted base) (clause_goals_of clause.now.body)) }
{
    let goals = clause.goals(alloc, base, Scope::Local(0), &Goals::empty())?;
    let mut terms = Vec::new(alloc);
    for item in goals.items() {
        if let Item::Goal { term, cut: _ } = item {
            terms.push(term.share()?)?;
        }
    }
    Ok(terms)
}

/// The same side.
fn shared_side(side: &EquationSide) -> Result<EquationSide, NoMemory>
    ensures { IfOk result (λ shared. shared ≡ side.now) }
{
    match side {
        EquationSide::Value(value) => Ok(EquationSide::Value(*value)),
        EquationSide::Copied(term) => Ok(EquationSide::Copied(term.share()?)),
    }
}

/// The number of the clause that is removed, if it is.
fn removal(removes: bool, id: ClauseId) -> Option<u64>
    ensures { result ≡ removal_of removes id.0 }
{
    if removes { Some(id.0) } else { None }
}
