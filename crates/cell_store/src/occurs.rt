//! Whether a variable occurs in what a value stands for.
ghost use Rattle.std.specs.Prelude.{◌≡◌, ◌<◌, ◌-◌, ◌^◌, ◌∷◌, ℕ, IfOk, OnOk, reverse};
ghost use Rattle.au_model.specs.Terms.Substitutions.{occurs};
ghost use Rattle.cell_store.specs.StoreView.{IsValueIn, compound_meaning, meaning, text_in};
ghost use Rattle.cell_store.specs.Arguments.{IsArgument, argument_meaning, AreThere, AreInside, IsSearched, HasOpened, KeepsRest, is_in_any, with_waiting};
ghost use Rattle.cell_store.specs.ArgumentSteps.{IsLookedAlong};

use crate::arguments::{Arguments, arguments_of, rest_of};
use crate::store::Store;
use au_term::NoMemory;
use binding_array::BindingCell;

/// What a variable is searched in: it is found, it is not there, or the arguments of a compound are to be looked at.
#[derive(Clone, Copy, Debug)]
pub(crate) enum Searched {
    Found,
    Past,
    Inside(Arguments),
}

/// Whether a variable that is free occurs in what a compound stands for.
#[inline(never)]
pub(crate) fn occurs(
    variable: u32,
    compound: (u32, u32),
    store: &mut Store,
) -> Result<bool, NoMemory>
    requires { IsValueIn store.old (BindingCell.Compound compound.0 compound.1) }
    ensures occurs { IfOk result (λ b. b ≡ occurs variable (compound_meaning store.old compound)) }
    ensures kept { store.new ≡ store.old }
{
    match look_along(variable, opened(compound, store), store) {
        Searched::Found => Ok(true),
        Searched::Past => Ok(false),
        Searched::Inside(rest) => occurs_inside(variable, rest, store),
    }
}

/// Looks for a variable at arguments one after another, until one is a compound: that one and those after it are left.
#[inline(always)]
fn look_along(variable: u32, arguments: Arguments, store: &Store) -> Searched
    requires { AreThere (text_in store.now) store.now.now.next arguments }
    ensures { IsLookedAlong store.now variable arguments result }
{
    let base = arguments.base;
    let mut at = arguments.at;
    let mut count = arguments.count;
    loop {
        match look_at_first(variable, Arguments { at, base, count }, store) {
            Searched::Found => return Searched::Found,
            Searched::Inside(_) => return Searched::Inside(Arguments { at, base, count }),
            Searched::Past => {
                if count == 1 {
                    return Searched::Past;
                }
                at += 1;
                count -= 1;
            }
        }
    }
}

/// Whether a variable occurs in what one of these arguments stands for. The room for those that wait is taken from the store.
#[inline(never)]
fn occurs_inside(variable: u32, arguments: Arguments, store: &mut Store) -> Result<bool, NoMemory>
    requires { AreThere (text_in store.old) store.old.now.next arguments }
    ensures occurs { IfOk result (λ b. b ≡ is_in_any store.old variable arguments) }
    ensures kept { store.new ≡ store.old }
{
    let mut pending = store.take_walked();
    let answer = search(variable, arguments, store, &mut pending);
    store.keep_walked(pending);
    answer
}

/// Whether a variable occurs in what one of these arguments stands for. The list takes the arguments that wait behind those
/// that are looked at.
fn search(
    variable: u32,
    arguments: Arguments,
    store: &Store,
    pending: &mut Vec<Arguments>,
) -> Result<bool, NoMemory>
    requires { AreThere (text_in store.now) store.now.now.next arguments }
    ensures { IfOk result (λ b. b ≡ is_in_any store.now variable arguments) }
{
    let mut open = arguments;
    pending.clear();
    loop {
        match look_at_first(variable, open, store) {
            Searched::Found => return Ok(true),
            Searched::Past => match next_arguments(open, pending) {
                Some(next) => open = next,
                None => return Ok(false),
            },
            Searched::Inside(inner) => {
                push_rest(open, pending)?;
                open = inner;
            }
        }
    }
}

/// Looks for a variable at what a value stands for.
#[inline(always)]
fn look_at(variable: u32, value: BindingCell, store: &Store) -> Searched
    requires { IsValueIn store.now value }
    ensures { IsSearched store.now variable (meaning store.now value) result }
{
    match store.dereference(value) {
        BindingCell::Var(number) => {
            if number == variable {
                Searched::Found
            } else {
                Searched::Past
            }
        }
        BindingCell::Compound(at, base) => Searched::Inside(opened((at, base), store)),
        _ => Searched::Past,
    }
}

/// Looks for a variable at what the first of these arguments stands for. One without variables is passed over.
#[inline(always)]
fn look_at_first(variable: u32, arguments: Arguments, store: &Store) -> Searched
    requires { IsArgument (text_in store.now) store.now.now.next arguments.base arguments.at }
    ensures searched { IsSearched store.now variable (argument_meaning store.now arguments.base arguments.at) result }
    ensures short { arguments.at < 2 ^ 32 - 1 }
{
    match store.argument_unless_ground(arguments.at, arguments.base) {
        Some(value) => look_at(variable, value, store),
        None => Searched::Past,
    }
}

/// The arguments of a compound.
#[inline(always)]
fn opened(compound: (u32, u32), store: &Store) -> Arguments
    requires { IsValueIn store.now (BindingCell.Compound compound.0 compound.1) }
    ensures { (x : ℕ) → AreInside store.now x (compound_meaning store.now compound) result }
{
    let (_name, count) = store.functor(compound.0);
    arguments_of(compound, count)
}

/// The arguments that are next, once the first of these was looked at.
#[inline(always)]
fn next_arguments(arguments: Arguments, pending: &mut Vec<Arguments>) -> Option<Arguments>
    requires some { 0 < arguments.count }
    requires short { arguments.at < 2 ^ 32 - 1 }
    ensures { KeepsRest arguments (reverse pending.old.items) (with_waiting result (reverse pending.new.items)) }
{
    if arguments.count == 1 {
        return pending.pop();
    }
    Some(rest_of(arguments))
}

/// Puts the arguments of the compound at a place on top.
pub fn push_arguments(
    at: u32,
    base: u32,
    store: &Store,
    pending: &mut Vec<Arguments>,
) -> Result<(), NoMemory>
    requires { IsValueIn store.now (BindingCell.Compound at base) }
    ensures { OnOk result (HasOpened (text_in store.now) store.now.now.next at base (reverse pending.old.items) (reverse pending.new.items)) }
{
    let (_name, count) = store.functor(at);
    let at = at + 1;
    pending.push(Arguments { at, base, count })?;
    Ok(())
}

/// Puts arguments but for the first on top.
#[inline(always)]
pub fn push_rest(arguments: Arguments, pending: &mut Vec<Arguments>) -> Result<(), NoMemory>
    requires some { 0 < arguments.count }
    requires short { arguments.at < 2 ^ 32 - 1 }
    ensures { OnOk result (KeepsRest arguments (reverse pending.old.items) (reverse pending.new.items)) }
{
    if arguments.count > 1 {
        pending.push(rest_of(arguments))?;
    }
    Ok(())
}
