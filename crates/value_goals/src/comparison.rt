//! Values compared in the standard order of what they stand for (ISO/IEC 13211-1, 7.2).
ghost use Rattle.std.specs.Prelude.{◌≡◌, ◌<◌, IfOk, length};
ghost use Rattle.std.specs.Cmp.Lexicographic.{slice_cmp};
ghost use Rattle.std.specs.Ordering.{nat_cmp, is_eq};
ghost use Rattle.au_model.specs.Terms.Unifier.{size};
ghost use Rattle.clause_compile.specs.AtomNumbers.{name_at};
ghost use Rattle.run_model.specs.Goals.StandardOrder.{order};
ghost use Rattle.cell_store.specs.StoreView.{IsValueIn, meaning, text_in, compound_meaning};
ghost use Rattle.cell_store.specs.UnificationSteps.{AreEquations};
ghost use Rattle.value_goals.specs.Comparison.{IsCompared, IsPairWalk, kind_number, argument_pairs};

use au_term::NoMemory;
use binding_array::BindingCell;
use cell_store::Store;
use cell_store::arguments::{Equations, arguments_of, rest_of};
use std::alloc::Global;
use std::cmp::Ordering;

/// How two values compare: it is known, or as their arguments do.
#[derive(Clone, Copy, Debug)]
pub(crate) enum Compared {
    Decided(Ordering),
    Inside(Equations),
}

/// How arguments compare: it is known, or as those inside two of them do, and then as the others do.
#[derive(Clone, Copy, Debug)]
pub(crate) enum Walked {
    Ended(Ordering),
    Entered(Equations, Equations),
}

/// How what two values stand for stands to one another in the standard order. Only arguments that are left, while others are
/// gone into, take memory.
pub fn compare(
    alloc: Global,
    store: &Store,
    left: BindingCell,
    right: BindingCell,
) -> Result<Ordering, NoMemory>
    requires left { IsValueIn store.now left }
    requires right { IsValueIn store.now right }
    ensures { IfOk result (λ o. o ≡ order (meaning store.now left) (meaning store.now right)) }
{
    let mut inside = match compare_tops(store, left, right) {
        Compared::Decided(ordering) => return Ok(ordering),
        Compared::Inside(equations) => equations,
    };
    let mut pending = Vec::new(alloc);
    loop {
        match walk(store, inside) {
            Walked::Entered(deeper, rest) => {
                if rest.left.count > 0 {
                    pending.push(rest)?;
                }
                inside = deeper;
            }
            Walked::Ended(ordering) => {
                if ordering.is_ne() {
                    return Ok(ordering);
                }
                match pending.pop() {
                    Some(equations) => inside = equations,
                    None => return Ok(Ordering::Equal),
                }
            }
        }
    }
}

/// Whether two values stand for the same term. Names are told apart by their numbers.
#[inline]
pub fn are_identical(
    alloc: Global,
    store: &Store,
    left: BindingCell,
    right: BindingCell,
) -> Result<bool, NoMemory>
    requires left { IsValueIn store.now left }
    requires right { IsValueIn store.now right }
    ensures { IfOk result (λ b. b ≡ is_eq (order (meaning store.now left) (meaning store.now right))) }
{
    let left = store.dereference(left);
    let right = store.dereference(right);
    match (left, right) {
        (BindingCell::Atom(a), BindingCell::Atom(b)) => Ok(are_one_name(store, a, b)),
        _ => Ok(compare(alloc, store, left, right)?.is_eq()),
    }
}

/// Whether two names are the same.
#[inline]
fn are_one_name(store: &Store, a: u32, b: u32) -> bool
    requires left { a < length (text_in store.now).names }
    requires right { b < length (text_in store.now).names }
    ensures { result ≡ is_eq (slice_cmp nat_cmp (name_at (text_in store.now).names a) (name_at (text_in store.now).names b)) }
{
    // The proof reads off that no two names are the same.
    let _next = store.next();
    a == b
}

/// Goes over arguments from the left, up to the first two that differ or have arguments themselves.
fn walk(store: &Store, equations: Equations) -> Walked
    requires { AreEquations (text_in store.now) store.now.now.next equations }
    ensures { IsPairWalk store.now (argument_pairs store.now equations) result }
{
    let mut rest = equations;
    while rest.left.count > 0 {
        let left = store.argument(rest.left.at, rest.left.base);
        let right = store.argument(rest.right.at, rest.right.base);
        rest = Equations {
            left: rest_of(rest.left),
            right: rest_of(rest.right),
        };
        match compare_tops(store, left, right) {
            Compared::Decided(ordering) => {
                if ordering.is_ne() {
                    return Walked::Ended(ordering);
                }
            }
            Compared::Inside(equations) => return Walked::Entered(equations, rest),
        }
    }
    Walked::Ended(Ordering::Equal)
}

/// How two values compare.
fn compare_tops(store: &Store, left: BindingCell, right: BindingCell) -> Compared
    requires left { IsValueIn store.now left }
    requires right { IsValueIn store.now right }
    ensures { IsCompared store.now (order (meaning store.now left) (meaning store.now right)) (size (meaning store.now left)) result }
{
    let left = store.dereference(left);
    let right = store.dereference(right);
    match (left, right) {
        (BindingCell::Var(m), BindingCell::Var(n)) => Compared::Decided(m.cmp(&n)),
        (BindingCell::Int(y), BindingCell::Int(z)) => Compared::Decided(y.cmp(&z)),
        (BindingCell::Atom(a), BindingCell::Atom(b)) => Compared::Decided(names(store, a, b)),
        (BindingCell::Compound(at, base), BindingCell::Compound(to, on)) => {
            compounds(store, (at, base), (to, on))
        }
        _ => Compared::Decided(kind_number(left).cmp(&kind_number(right))),
    }
}

/// Values of different kinds are ordered by these numbers.
fn kind_number(value: BindingCell) -> u32
    ensures { result ≡ kind_number value }
{
    match value {
        BindingCell::Free => 4,
        BindingCell::Var(_) => 0,
        BindingCell::Int(_) => 1,
        BindingCell::Atom(_) => 2,
        BindingCell::Compound(_, _) => 3,
    }
}

/// How two compounds compare, by the numbers of their arguments, their names, and then their arguments.
fn compounds(store: &Store, left: (u32, u32), right: (u32, u32)) -> Compared
    requires left { IsValueIn store.now (BindingCell.Compound left.0 left.1) }
    requires right { IsValueIn store.now (BindingCell.Compound right.0 right.1) }
    ensures { IsCompared store.now (order (compound_meaning store.now left) (compound_meaning store.now right)) (size (compound_meaning store.now left)) result }
{
    if left == right {
        return Compared::Decided(Ordering::Equal);
    }
    let (name, count) = store.functor(left.0);
    let (other, others) = store.functor(right.0);
    if count != others {
        return Compared::Decided(count.cmp(&others));
    }
    match names(store, name, other) {
        Ordering::Equal => Compared::Inside(Equations {
            left: arguments_of(left, count),
            right: arguments_of(right, count),
        }),
        ordering => Compared::Decided(ordering),
    }
}

/// How two names compare, by their characters.
fn names(store: &Store, a: u32, b: u32) -> Ordering
    requires left { a < length (text_in store.now).names }
    requires right { b < length (text_in store.now).names }
    ensures { result ≡ slice_cmp nat_cmp (name_at (text_in store.now).names a) (name_at (text_in store.now).names b) }
{
    if a == b {
        return Ordering::Equal;
    }
    store.name(a).cmp(store.name(b))
}
