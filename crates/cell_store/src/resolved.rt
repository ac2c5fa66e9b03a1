//! Values as terms: what they stand for, or as they are written.
ghost use Rattle.std.specs.Prelude.{◌≡◌, ◌<◌, IfOk, OnOk, reverse};
ghost use Rattle.au_term.specs.PrefixOrder.{due_after};
ghost use Rattle.cell_store.specs.StoreView.{IsValueIn};
ghost use Rattle.cell_store.specs.WrittenTerms.{IsFirstWritten, IsReachedBy, followed, followed_term};

use crate::arguments::Arguments;
use crate::occurs::{push_arguments, push_rest};
use crate::store::Store;
use au_term::{Cell, FlatTerm, NoMemory, TermBuilder};
use binding_array::BindingCell;
use std::alloc::Global;

/// The term that a value stands for, where bindings are followed, or the one that it is.
pub(crate) fn resolved(
    alloc: Global,
    value: BindingCell,
    store: &Store,
    follow: bool,
) -> Result<FlatTerm, NoMemory>
    requires { IsValueIn store.now value }
    ensures { IfOk result (λ t. t ≡ followed_term follow store.now value) }
{
    let mut builder = TermBuilder::new(alloc);
    let mut pending = Vec::new(alloc);
    write_first(value, store, follow, &mut builder, &mut pending)?;
    while let Some(arguments) = pending.pop() {
        let value = store.argument(arguments.at, arguments.base);
        push_rest(arguments, &mut pending)?;
        write_first(value, store, follow, &mut builder, &mut pending)?;
    }
    Ok(builder.finish())
}

/// Writes the first cell of what a value comes to; the arguments of a compound are put on top.
fn write_first(
    value: BindingCell,
    store: &Store,
    follow: bool,
    builder: &mut TermBuilder,
    pending: &mut Vec<Arguments>,
) -> Result<(), NoMemory>
    requires there { IsValueIn store.now value }
    requires due { 0 < due_after 1 builder.old }
    ensures { OnOk result (IsFirstWritten follow store.now value builder.old builder.new (reverse pending.old.items) (reverse pending.new.items)) }
{
    match reached_by(value, store, follow) {
        BindingCell::Free => unreachable!(),
        BindingCell::Var(number) => builder.push(Cell::Var(u64::from(number))),
        BindingCell::Int(value) => builder.push(Cell::Int(value)),
        BindingCell::Atom(number) => builder.push(Cell::Atom(store.name(number).share()?)),
        BindingCell::Compound(at, base) => {
            let (name, count) = store.functor(at);
            builder.push(Cell::Functor(store.name(name).share()?, count))?;
            push_arguments(at, base, store, pending)
        }
    }
}

/// The value itself, or, where bindings are followed, one that stands for the same and is no bound variable.
#[inline(always)]
fn reached_by(value: BindingCell, store: &Store, follow: bool) -> BindingCell
    requires { IsValueIn store.now value }
    ensures { IsReachedBy (followed follow store.now) store.now value result }
{
    if follow {
        store.dereference(value)
    } else {
        value
    }
}
