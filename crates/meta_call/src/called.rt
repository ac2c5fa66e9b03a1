//! Terms with further arguments (ISO/IEC 13211-1, 8.15.4 of its second corrigendum).
ghost use Rattle.std.specs.Prelude.{◌≡◌, ◌+◌, ◌≤◌, ◌<◌, ◌^◌, true, IfOk, OnOk, reverse};
ghost use Rattle.au_term.specs.Term.{argument_count};
ghost use Rattle.au_term.specs.PrefixOrder.{due_after};
ghost use Rattle.au_model.specs.Terms.Forms.{is_callable};
ghost use Rattle.run_model.specs.Goals.Control.{with_arguments};
ghost use Rattle.cell_store.specs.StoreView.{IsValueIn, value_term};
ghost use Rattle.region_control.specs.GoalForms.{AreArgumentsIn};
ghost use Rattle.meta_call.specs.CalledTerms.{further_terms, HasBegun, HasNameAndArguments, PutsArguments, IsFirstTaken};

use au_term::{Cell, FlatTerm, NoMemory, TermBuilder};
use binding_array::BindingCell;
use cell_store::arguments::{Arguments, arguments_of};
use cell_store::{Store, push_arguments, push_rest};
use std::alloc::Global;

/// A term with further arguments, each as it stands in the text: what its variables are bound to is not copied.
pub(crate) fn called_term(
    alloc: Global,
    store: &Store,
    callee: BindingCell,
    further: Arguments,
) -> Result<FlatTerm, NoMemory>
    requires callee { IsValueIn store.now callee }
    requires callable { is_callable (value_term store.now callee) ≡ true }
    requires further { AreArgumentsIn store.now further }
    requires some { 0 < further.count }
    requires most { argument_count (value_term store.now callee) + further.count ≤ 65535 }
    ensures { IfOk result (λ t. t ≡ with_arguments (value_term store.now callee) (further_terms store.now further)) }
{
    let (mut builder, mut pending) = begin(alloc, store, callee, further)?;
    while let Some(arguments) = pending.pop() {
        let value = store.argument(arguments.at, arguments.base);
        push_rest(arguments, &mut pending)?;
        take_first(value, store, &mut builder, &mut pending)?;
    }
    Ok(builder.finish())
}

/// The functor of a term with further arguments, which are left to be written, its own on top of them.
fn begin(
    alloc: Global,
    store: &Store,
    callee: BindingCell,
    further: Arguments,
) -> Result<(TermBuilder, Vec<Arguments>), NoMemory>
    requires callee { IsValueIn store.now callee }
    requires callable { is_callable (value_term store.now callee) ≡ true }
    requires further { AreArgumentsIn store.now further }
    requires some { 0 < further.count }
    requires most { argument_count (value_term store.now callee) + further.count ≤ 65535 }
    ensures { IfOk result (λ w. HasBegun store.now callee further w.0 w.1.items) }
{
    let (name, own) = parts(store, callee);
    let mut pending = Vec::new(alloc);
    put_arguments(further, &mut pending)?;
    put_arguments(own, &mut pending)?;
    let mut builder = TermBuilder::new(alloc);
    let count = own.count + further.count;
    builder.push(Cell::Functor(store.name(name).share()?, count))?;
    Ok((builder, pending))
}

/// The name of an atom or a compound, by its number, and its arguments.
fn parts(store: &Store, callee: BindingCell) -> (u32, Arguments)
    requires callee { IsValueIn store.now callee }
    requires callable { is_callable (value_term store.now callee) ≡ true }
    ensures { HasNameAndArguments store.now callee result.0 result.1 }
{
    match callee {
        BindingCell::Atom(name) => {
            let none = Arguments {
                at: 0,
                base: 0,
                count: 0,
            };
            (name, none)
        }
        BindingCell::Compound(at, base) => {
            let (name, count) = store.functor(at);
            (name, arguments_of((at, base), count))
        }
        _ => unreachable!(),
    }
}

/// Puts arguments on top, if there are any.
fn put_arguments(arguments: Arguments, pending: &mut Vec<Arguments>) -> Result<(), NoMemory>
    ensures { OnOk result (PutsArguments arguments (reverse pending.old.items) (reverse pending.new.items)) }
{
    if arguments.count > 0 {
        pending.push(arguments)?;
    }
    Ok(())
}

/// Writes the first cell of a value; the arguments of a compound are put on top.
fn take_first(
    value: BindingCell,
    store: &Store,
    builder: &mut TermBuilder,
    pending: &mut Vec<Arguments>,
) -> Result<(), NoMemory>
    requires there { IsValueIn store.now value }
    requires due { 0 < due_after 1 builder.old }
    ensures { OnOk result (IsFirstTaken store.now value builder.old builder.new (reverse pending.old.items) (reverse pending.new.items)) }
{
    match value {
        BindingCell::Free => unreachable!(),
        BindingCell::Var(number) => builder.push(Cell::Var(u64::from(number))),
        BindingCell::Int(value) => builder.push(Cell::Int(value)),
        BindingCell::Atom(number) => builder.push(Cell::Atom(store.name(number).share()?)),
        BindingCell::Compound(at, base) => {
            let (name, count) = store.functor(at);
            builder.push(Cell::Functor(store.name(name).share()?, count))?;
            push_arguments(at, base, store, pending)
        }
    }
}
