//! The clauses that a goal may match.
ghost use Rattle.std.specs.Prelude.{◌≡◌, ◌<◌, IfSome, MatchOption, Some, length, true};
ghost use Rattle.au_term.specs.Term.{argument};
ghost use Rattle.proc_index.specs.Keys.{key_of};
ghost use Rattle.cell_store.specs.StoreView.{IsValueIn, meaning, text_in};
ghost use Rattle.clause_index.specs.HeadKeys.{IsHeadKeyOf, IsKeyAmong, named_key};
ghost use Rattle.clause_index.specs.Cursors.{IsCursorOf};
ghost use Rattle.region_split.specs.Candidates.{AreCandidates, FindsClause, HaveNoEntry, AreToldApart, numbers_differ};

use crate::keys::key_of_value;
use crate::text::Text;
use binding_array::BindingCell;
use cell_store::Store;
use clause_index::{Cursor, HeadKey, NumberKey};

/// The clauses that a goal may match, by its name, its number of arguments and the key of the first one.
#[inline(always)]
pub(crate) fn candidates(text: &Text, store: &Store, goal: BindingCell, by: HeadKey) -> Cursor
    requires program { store.now.program ≡ text.now.code }
    requires numbers { IsHeadKeyOf (text_in store.now).names (meaning store.now goal) by }
    ensures { AreCandidates text.now (meaning store.now goal) store.now.now.next result }
{
    // The proof reads off that no two names are the same.
    let _next = store.next();
    text.candidates(by.name, by.arity, by.first)
}

/// Takes the first clause off those that are left which may match a goal.
#[inline]
pub(crate) fn next_match(
    text: &Text,
    store: &Store,
    goal: BindingCell,
    left: &mut Cursor,
) -> Option<u32>
    requires program { store.now.program ≡ text.now.code }
    requires there { IsValueIn store.now goal }
    requires cursor { IsCursorOf text.now.heads left.old }
    ensures { MatchOption result (HaveNoEntry text.now (meaning store.now goal) store.now.now.next left.old) (FindsClause text.now (meaning store.now goal) store.now.now.next left.old left.new) }
{
    while let Some(clause) = text.take(left) {
        if !are_apart(text, store, goal, clause) {
            return Some(clause);
        }
    }
    None
}

/// The same, where the clause that is the only one left need not be told apart: it is tried.
#[inline(always)]
pub(crate) fn first_match(
    text: &Text,
    store: &Store,
    goal: BindingCell,
    left: &mut Cursor,
) -> Option<u32>
    requires program { store.now.program ≡ text.now.code }
    requires there { IsValueIn store.now goal }
    requires cursor { IsCursorOf text.now.heads left.old }
    ensures { MatchOption result (HaveNoEntry text.now (meaning store.now goal) store.now.now.next left.old) (FindsClause text.now (meaning store.now goal) store.now.now.next left.old left.new) }
{
    let clause = text.take(left)?;
    if left.is_empty() || !are_apart(text, store, goal, clause) {
        return Some(clause);
    }
    next_match(text, store, goal, left)
}

/// The same after a clause was found: one that has the same keys as that is not told apart either.
#[inline(always)]
pub(crate) fn match_after(
    text: &Text,
    store: &Store,
    goal: BindingCell,
    found: u32,
    left: &mut Cursor,
) -> Option<u32>
    requires program { store.now.program ≡ text.now.code }
    requires there { IsValueIn store.now goal }
    requires cursor { IsCursorOf text.now.heads left.old }
    ensures { MatchOption result (HaveNoEntry text.now (meaning store.now goal) store.now.now.next left.old) (FindsClause text.now (meaning store.now goal) store.now.now.next left.old left.new) }
{
    let clause = text.take(left)?;
    if is_alike(text, found, clause) || !are_apart(text, store, goal, clause) {
        return Some(clause);
    }
    next_match(text, store, goal, left)
}

/// Whether a clause stands after another of its procedure that has the same keys.
#[inline(always)]
fn is_alike(text: &Text, other: u32, clause: u32) -> bool
    requires { clause < length text.now.clauses }
{
    clause > 0 && clause - 1 == other && text.placed(clause).is_alike
}

/// Whether a goal's second, third or fourth argument tells it apart from a clause's head, so that they don't unify, or an argument
/// inside of one where the head has a constant. Nothing is read of the goal where none of these has a key in the head.
#[inline]
fn are_apart(text: &Text, store: &Store, goal: BindingCell, clause: u32) -> bool
    requires program { store.now.program ≡ text.now.code }
    requires there { IsValueIn store.now goal }
    requires clause { clause < length text.now.clauses }
    ensures { result ≡ true → AreToldApart text.now (meaning store.now goal) clause }
{
    // The proof reads off that no two names are the same.
    let _next = store.next();
    let placed = text.placed(clause);
    if placed.keyed.is_none() && placed.inner.is_none() {
        return false;
    }
    let BindingCell::Compound(at, base) = store.dereference(goal) else {
        return false;
    };
    let (_name, count) = store.functor(at);
    if let Some(inner) = placed.inner {
        if inner.of < count {
            let own = store.argument(at + 1 + inner.of, base);
            let own = inner_key_of_value(store, own, inner.number);
            if tell_apart(own, Some(inner.key)) {
                return true;
            }
        }
    }
    if let Some(keyed) = placed.keyed {
        if keyed.number < count {
            let own = key_of_value(store, store.argument(at + 1 + keyed.number, base));
            if tell_apart(own, Some(keyed.key)) {
                return true;
            }
        }
    }
    for i in placed.keyed_from..placed.keyed_to.min(count) {
        let own = key_of_value(store, store.argument(at + 1 + i, base));
        if tell_apart(own, text.argument_key(clause, i)) {
            return true;
        }
    }
    false
}

/// The key of an argument of what a value stands for; none where that is no compound, or has no such argument.
#[inline(always)]
fn inner_key_of_value(store: &Store, value: BindingCell, number: u32) -> Option<NumberKey>
    requires { IsValueIn store.now value }
    ensures there { IsKeyAmong (text_in store.now).names result }
    ensures key { IfSome result (λ key. named_key (text_in store.now).names (Some key) ≡ key_of (argument number (meaning store.now value))) }
{
    let BindingCell::Compound(at, base) = store.dereference(value) else {
        return None;
    };
    let (_name, count) = store.functor(at);
    if number >= count {
        return None;
    }
    key_of_value(store, store.argument(at + 1 + number, base))
}

/// Whether two keys differ.
#[inline(always)]
fn tell_apart(a: Option<NumberKey>, b: Option<NumberKey>) -> bool
    ensures { result ≡ numbers_differ a b }
{
    match (a, b) {
        (Some(a), Some(b)) => a != b,
        _ => false,
    }
}
