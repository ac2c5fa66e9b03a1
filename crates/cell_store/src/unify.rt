//! The unifier of two values (ISO/IEC 13211-1, 7.3.2).
ghost use Rattle.std.specs.Bool.{OnTrue, OnFalse};
ghost use Rattle.std.specs.Prelude.{◌≡◌, ◌<◌, ◌-◌, ◌^◌, ◌∷◌, [], IfOk, OnOk, ℕ, Option, List, length, nat_eq, reverse};
ghost use Rattle.std.specs.Cmp.Lexicographic.{pointwise};
ghost use Rattle.au_term.specs.Term.{VarTerm};
ghost use Rattle.au_model.specs.Terms.Substitutions.{occurs, value_of};
ghost use Rattle.clause_compile.specs.AtomNumbers.{name_at};
ghost use Rattle.cell_store.specs.FreshVariables.{AreOlder, AreYoung, IsOlder, StaysOlder, fresh_after, is_fresh};
ghost use Rattle.cell_store.specs.Values.{IsNoVariable};
ghost use Rattle.cell_store.specs.StoreView.{IsUnbound, IsValueIn, compound_meaning, meaning, substitution, text_in};
ghost use Rattle.cell_store.specs.UnificationSteps.{AllEquations, IsSolved, IsUnified, OnlyBinds, FollowsRule, SolvesFirst, TakesRule, IsBoundOr, equations_left, solved_if};
ghost use Rattle.cell_store.specs.ArgumentSteps.{IsConstant};
ghost use Rattle.cell_store.specs.Arguments.{IsArgument, argument_meaning};

use crate::arguments::{Arguments, Equations, arguments_of, rest};
use crate::occurs::occurs;
use crate::store::Store;
use au_term::NoMemory;
use binding_array::BindingCell;

/// How two values unify: nothing makes them one, they are one now, or their arguments are still to be made one.
#[derive(Clone, Copy, Debug)]
pub(crate) enum Outcome {
    Clash,
    Solved,
    Inside(Equations),
}

/// Makes two values one by further bindings, or answers that none do. Where the second is the head of a clause and the
/// first one older than the clause, `fresh` is the clause's first variable: such a variable is bound to what is older
/// without the search for it there, and not put on the trail.
#[inline]
pub(crate) fn unify(
    a: BindingCell,
    b: BindingCell,
    fresh: Option<u32>,
    store: &mut Store,
) -> Result<bool, NoMemory>
    requires left { IsValueIn store.old a }
    requires right { IsValueIn store.old b }
    requires older { IsOlder fresh (meaning store.old a) }
    requires young { AreYoung store.old fresh }
    ensures unified { IfOk result (IsUnified a b store.old store.new) }
    ensures kept { OnlyBinds store.old store.new }
{
    let mut fresh = fresh;
    match first_goes(a, b, &mut fresh, store)? {
        Outcome::Clash => Ok(false),
        Outcome::Solved => Ok(true),
        Outcome::Inside(equations) => solve_arguments(equations, fresh, store),
    }
}

/// Makes both sides of equations one by further bindings, or answers that none do: of one equation after another.
#[inline(always)]
fn solve_arguments(
    equations: Equations,
    fresh: Option<u32>,
    store: &mut Store,
) -> Result<bool, NoMemory>
    requires there { AllEquations (text_in store.old) store.old.now.next (equations ∷ []) }
    requires older { AreOlder fresh (equations_left store.old (equations ∷ [])) }
    requires young { AreYoung store.old fresh }
    ensures solved { IfOk result (IsSolved (equations ∷ []) store.old store.new) }
    ensures kept { OnlyBinds store.old store.new }
{
    let mut fresh = fresh;
    // Carried as numbers, which is faster than as equations.
    let Arguments {
        mut at,
        mut base,
        mut count,
    } = equations.left;
    let Arguments {
        at: mut to,
        base: mut on,
        count: mut others,
    } = equations.right;
    loop {
        let open = Equations {
            left: Arguments { at, base, count },
            right: Arguments {
                at: to,
                base: on,
                count: others,
            },
        };
        if !solve_first(open, &mut fresh, store)? {
            return Ok(false);
        }
        if count == 1 {
            return Ok(true);
        }
        let next = rest(open);
        (at, base, count) = (next.left.at, next.left.base, next.left.count);
        (to, on, others) = (next.right.at, next.right.base, next.right.count);
    }
}

/// Makes both sides of the first equation one by further bindings, or answers that none do.
#[inline(always)]
fn solve_first(
    equations: Equations,
    fresh: &mut Option<u32>,
    store: &mut Store,
) -> Result<bool, NoMemory>
    requires there { AllEquations (text_in store.old) store.old.now.next (equations ∷ []) }
    requires older { AreOlder fresh.old (equations_left store.old (equations ∷ [])) }
    requires young { AreYoung store.old fresh.old }
    ensures solved { IfOk result (SolvesFirst equations store.old store.new) }
    ensures stays { OnOk result (StaysOlder store.old store.new fresh.old fresh.new) }
    ensures kept { OnlyBinds store.old store.new }
    ensures short { (equations.left.at < 2 ^ 32 - 1) × (equations.right.at < 2 ^ 32 - 1) }
{
    match arguments_go(equations.left, equations.right, fresh, store)? {
        Outcome::Clash => Ok(false),
        Outcome::Solved => Ok(true),
        Outcome::Inside(inner) => solve_inside(inner, fresh, store),
    }
}

/// Makes both sides of equations inside of arguments one, or answers that none do. No list is needed as long as an equation
/// that is opened is the last one.
#[inline(always)]
fn solve_inside(
    equations: Equations,
    fresh: &mut Option<u32>,
    store: &mut Store,
) -> Result<bool, NoMemory>
    requires there { AllEquations (text_in store.old) store.old.now.next (equations ∷ []) }
    requires older { AreOlder fresh.old (equations_left store.old (equations ∷ [])) }
    requires young { AreYoung store.old fresh.old }
    ensures solved { IfOk result (IsSolved (equations ∷ []) store.old store.new) }
    ensures stays { OnOk result (StaysOlder store.old store.new fresh.old fresh.new) }
    ensures kept { OnlyBinds store.old store.new }
{
    // Carried as numbers, which is faster than as equations.
    let Arguments {
        mut at,
        mut base,
        mut count,
    } = equations.left;
    let Arguments {
        at: mut to,
        base: mut on,
        count: mut others,
    } = equations.right;
    loop {
        let open = Equations {
            left: Arguments { at, base, count },
            right: Arguments {
                at: to,
                base: on,
                count: others,
            },
        };
        match arguments_go(open.left, open.right, fresh, store)? {
            Outcome::Clash => return Ok(false),
            Outcome::Solved => {
                if count == 1 {
                    return Ok(true);
                }
                let next = rest(open);
                (at, base, count) = (next.left.at, next.left.base, next.left.count);
                (to, on, others) = (next.right.at, next.right.base, next.right.count);
            }
            Outcome::Inside(inner) => {
                if count > 1 {
                    let from = *fresh;
                    *fresh = None;
                    return store.solve_behind(inner, rest(open), from);
                }
                (at, base, count) = (inner.left.at, inner.left.base, inner.left.count);
                (to, on, others) = (inner.right.at, inner.right.base, inner.right.count);
            }
        }
    }
}

/// Goes by the rule for the first equation, which mostly is one of two compounds.
#[inline(always)]
fn first_goes(
    left: BindingCell,
    right: BindingCell,
    fresh: &mut Option<u32>,
    store: &mut Store,
) -> Result<Outcome, NoMemory>
    requires left { IsValueIn store.old left }
    requires right { IsValueIn store.old right }
    requires older { IsOlder fresh.old (meaning store.old left) }
    ensures goes { IfOk result (TakesRule store.old store.new (meaning store.old left) (meaning store.old right)) }
    ensures stays { OnOk result (StaysOlder store.old store.new fresh.old fresh.new) }
    ensures kept { OnlyBinds store.old store.new }
{
    match (left, right) {
        (BindingCell::Compound(at, base), BindingCell::Compound(to, on)) => {
            Ok(compounds_go((at, base), (to, on), store))
        }
        _ => pair_goes(left, right, fresh, store),
    }
}

/// Goes by the rule for the equation of the first two arguments. On the right there are mostly variables of a clause that were
/// met for the first time, and compounds.
#[inline(always)]
pub(crate) fn arguments_go(
    left: Arguments,
    right: Arguments,
    fresh: &mut Option<u32>,
    store: &mut Store,
) -> Result<Outcome, NoMemory>
    requires left { IsArgument (text_in store.old) store.old.now.next left.base left.at }
    requires right { IsArgument (text_in store.old) store.old.now.next right.base right.at }
    requires older { IsOlder fresh.old (argument_meaning store.old left.base left.at) }
    requires young { AreYoung store.old fresh.old }
    ensures goes { IfOk result (TakesRule store.old store.new (argument_meaning store.old left.base left.at) (argument_meaning store.old right.base right.at)) }
    ensures stays { OnOk result (StaysOlder store.old store.new fresh.old fresh.new) }
    ensures kept { OnlyBinds store.old store.new }
    ensures short { (left.at < 2 ^ 32 - 1) × (right.at < 2 ^ 32 - 1) }
{
    let place = store.argument_place(right.at, right.base);
    if let Some(variable) = store.fresh_variable(place, right.base, *fresh) {
        let value = store.reached(left.at, left.base);
        store.bind_young(variable, value);
        return Ok(Outcome::Solved);
    }
    let value = store.reached(left.at, left.base);
    if let Some(compound) = store.compound(place, right.base) {
        return compound_goes(value, compound, fresh, store);
    }
    let right = store.dereference(store.value(place, right.base));
    values_go(value, right, fresh, store)
}

/// Goes by the rule for an equation with a compound on the right.
#[inline(always)]
fn compound_goes(
    left: BindingCell,
    right: (u32, u32),
    fresh: &mut Option<u32>,
    store: &mut Store,
) -> Result<Outcome, NoMemory>
    requires left { IsValueIn store.old left }
    requires unbound { IsUnbound (substitution store.old) left }
    requires right { IsValueIn store.old (BindingCell.Compound right.0 right.1) }
    requires older { IsOlder fresh.old (meaning store.old left) }
    ensures goes { IfOk result (TakesRule store.old store.new (meaning store.old left) (compound_meaning store.old right)) }
    ensures stays { OnOk result (StaysOlder store.old store.new fresh.old fresh.new) }
    ensures kept { OnlyBinds store.old store.new }
{
    match left {
        BindingCell::Compound(at, base) => Ok(compounds_go((at, base), right, store)),
        BindingCell::Var(m) => {
            bind_left(m, BindingCell::Compound(right.0, right.1), fresh, store)
        }
        _ => Ok(Outcome::Clash),
    }
}

/// Goes by the rule for an equation.
#[inline(always)]
fn pair_goes(
    left: BindingCell,
    right: BindingCell,
    fresh: &mut Option<u32>,
    store: &mut Store,
) -> Result<Outcome, NoMemory>
    requires left { IsValueIn store.old left }
    requires right { IsValueIn store.old right }
    requires older { IsOlder fresh.old (meaning store.old left) }
    ensures goes { IfOk result (TakesRule store.old store.new (meaning store.old left) (meaning store.old right)) }
    ensures stays { OnOk result (StaysOlder store.old store.new fresh.old fresh.new) }
    ensures kept { OnlyBinds store.old store.new }
{
    let left = store.dereference(left);
    let right = store.dereference(right);
    values_go(left, right, fresh, store)
}

/// Goes by the rule for two values that are no bound variables.
#[inline(always)]
fn values_go(
    left: BindingCell,
    right: BindingCell,
    fresh: &mut Option<u32>,
    store: &mut Store,
) -> Result<Outcome, NoMemory>
    requires left { IsValueIn store.old left }
    requires right { IsValueIn store.old right }
    requires left_unbound { IsUnbound (substitution store.old) left }
    requires right_unbound { IsUnbound (substitution store.old) right }
    requires older { IsOlder fresh.old (meaning store.old left) }
    ensures goes { IfOk result (TakesRule store.old store.new (meaning store.old left) (meaning store.old right)) }
    ensures stays { OnOk result (StaysOlder store.old store.new fresh.old fresh.new) }
    ensures kept { OnlyBinds store.old store.new }
{
    match right {
        BindingCell::Compound(to, on) => compound_goes(left, (to, on), fresh, store),
        BindingCell::Var(n) => match left {
            BindingCell::Var(m) => variables_go(m, n, store),
            _ => bind_right(n, left, *fresh, store),
        },
        _ => match left {
            BindingCell::Var(m) => bind_left(m, right, fresh, store),
            _ => Ok(constants_go(left, right, store)),
        },
    }
}

/// Of two free variables the one with the greater number is bound to the other.
#[inline(always)]
fn variables_go(m: u32, n: u32, store: &mut Store) -> Result<Outcome, NoMemory>
    requires left { IsValueIn store.old (BindingCell.Var m) }
    requires right { IsValueIn store.old (BindingCell.Var n) }
    requires left_free { value_of (substitution store.old) m ≡ VarTerm m }
    requires right_free { value_of (substitution store.old) n ≡ VarTerm n }
    ensures goes { IfOk result (TakesRule store.old store.new (VarTerm m) (VarTerm n)) }
    ensures stays { OnOk result ((fresh : Option ℕ) → IsOlder fresh (VarTerm m) → StaysOlder store.old store.new fresh fresh) }
    ensures kept { OnlyBinds store.old store.new }
{
    if m < n {
        store.bind(n, BindingCell::Var(m))?;
    } else if n < m {
        store.bind(m, BindingCell::Var(n))?;
    }
    Ok(Outcome::Solved)
}

/// Binds a free variable to a value, unless it occurs there.
#[inline(always)]
fn bind_checked(variable: u32, value: BindingCell, store: &mut Store) -> Result<Outcome, NoMemory>
    requires there { IsValueIn store.old (BindingCell.Var variable) }
    requires free { value_of (substitution store.old) variable ≡ VarTerm variable }
    requires value { IsValueIn store.old value }
    requires no_variable { IsNoVariable value }
    ensures bound { IfOk result (IsBoundOr variable (meaning store.old value) store.old store.new) }
    ensures kept { OnlyBinds store.old store.new }
{
    if is_inside(variable, value, store)? {
        return Ok(Outcome::Clash);
    }
    store.bind(variable, value)?;
    Ok(Outcome::Solved)
}

/// Whether a variable occurs in what a value that is no variable stands for.
#[inline(always)]
fn is_inside(variable: u32, value: BindingCell, store: &mut Store) -> Result<bool, NoMemory>
    requires there { IsValueIn store.old value }
    requires no_variable { IsNoVariable value }
    ensures occurs { IfOk result (λ b. b ≡ occurs variable (meaning store.old value)) }
    ensures kept { store.new ≡ store.old }
{
    match value {
        BindingCell::Compound(at, base) => occurs(variable, (at, base), store),
        _ => Ok(false),
    }
}

/// Binds a free variable of something older. Where it is bound to a compound, a clause's variables are no longer fresh.
#[inline(always)]
fn bind_left(
    variable: u32,
    value: BindingCell,
    fresh: &mut Option<u32>,
    store: &mut Store,
) -> Result<Outcome, NoMemory>
    requires there { IsValueIn store.old (BindingCell.Var variable) }
    requires free { value_of (substitution store.old) variable ≡ VarTerm variable }
    requires value { IsValueIn store.old value }
    requires no_variable { IsNoVariable value }
    ensures bound { IfOk result (IsBoundOr variable (meaning store.old value) store.old store.new) }
    ensures stays { OnOk result (StaysOlder store.old store.new fresh.old fresh.new) }
    ensures kept { OnlyBinds store.old store.new }
{
    let outcome = bind_checked(variable, value, store)?;
    *fresh = fresh_after(*fresh, value);
    Ok(outcome)
}

/// What is fresh after an older variable was bound to a value.
#[inline(always)]
fn fresh_after(fresh: Option<u32>, value: BindingCell) -> Option<u32>
    ensures { result ≡ fresh_after fresh value }
{
    match value {
        BindingCell::Compound(_, _) => None,
        _ => fresh,
    }
}

/// Binds a free variable to a value that is older than a clause.
#[inline(always)]
fn bind_right(
    variable: u32,
    value: BindingCell,
    fresh: Option<u32>,
    store: &mut Store,
) -> Result<Outcome, NoMemory>
    requires there { IsValueIn store.old (BindingCell.Var variable) }
    requires free { value_of (substitution store.old) variable ≡ VarTerm variable }
    requires value { IsValueIn store.old value }
    requires no_variable { IsNoVariable value }
    requires older { IsOlder fresh (meaning store.old value) }
    ensures bound { IfOk result (IsBoundOr variable (meaning store.old value) store.old store.new) }
    ensures stays { OnOk result (StaysOlder store.old store.new fresh fresh) }
    ensures kept { OnlyBinds store.old store.new }
{
    if is_fresh(variable, fresh) {
        store.bind(variable, value)?;
        return Ok(Outcome::Solved);
    }
    bind_checked(variable, value, store)
}

/// Whether a variable is one of a clause of which this is the first one.
#[inline(always)]
fn is_fresh(variable: u32, fresh: Option<u32>) -> bool
    ensures { result ≡ is_fresh variable fresh }
{
    match fresh {
        Some(base) => base <= variable,
        None => false,
    }
}

/// Goes by the rule for a value that is no variable and a constant.
#[inline(always)]
fn constants_go(left: BindingCell, right: BindingCell, store: &Store) -> Outcome
    requires left { IsValueIn store.now left }
    requires right { IsValueIn store.now right }
    requires left_no_variable { IsNoVariable left }
    requires right_constant { IsConstant right }
    ensures { TakesRule store.now store.now (meaning store.now left) (meaning store.now right) result }
{
    match (left, right) {
        (BindingCell::Int(y), BindingCell::Int(z)) => solved_if(y == z),
        (BindingCell::Atom(a), BindingCell::Atom(b)) => solved_if(are_same(a, b, store)),
        _ => Outcome::Clash,
    }
}

/// How two constants unify, by whether they are the same.
#[inline(always)]
fn solved_if(same: bool) -> Outcome
    ensures { result ≡ solved_if same }
{
    if same {
        Outcome::Solved
    } else {
        Outcome::Clash
    }
}

/// Whether two numbers are those of the same name.
#[inline(always)]
fn are_same(a: u32, b: u32, store: &Store) -> bool
    requires left { a < length (text_in store.now).names }
    requires right { b < length (text_in store.now).names }
    ensures { result ≡ pointwise nat_eq (name_at (text_in store.now).names a) (name_at (text_in store.now).names b) }
{
    // The proof reads off that no two names are the same.
    let _next = store.next();
    a == b
}

/// Goes by the rule for two compounds: their arguments are to be made one, where their functors are the same.
#[inline(always)]
fn compounds_go(left: (u32, u32), right: (u32, u32), store: &Store) -> Outcome
    requires left { IsValueIn store.now (BindingCell.Compound left.0 left.1) }
    requires right { IsValueIn store.now (BindingCell.Compound right.0 right.1) }
    ensures { TakesRule store.now store.now (compound_meaning store.now left) (compound_meaning store.now right) result }
{
    if left == right {
        return Outcome::Solved;
    }
    let (name, count) = store.functor(left.0);
    let (other, others) = store.functor(right.0);
    if count != others || !are_same(name, other, store) {
        return Outcome::Clash;
    }
    Outcome::Inside(Equations {
        left: arguments_of(left, count),
        right: arguments_of(right, count),
    })
}
