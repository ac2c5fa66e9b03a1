//! Values as bodies (ISO/IEC 13211-1, 7.6.2).
ghost use Rattle.std.specs.Prelude.{◌≡◌, ◌<◌, ◌-◌, ◌^◌, ◌++◌, IfOk, OnOk, IsTrue, ◌↔◌};
ghost use Rattle.au_term.specs.Term.{VarTerm};
ghost use Rattle.au_term.specs.PrefixOrder.{cells_of, due_after};
ghost use Rattle.run_model.specs.Programs.Bodies.{body_of, call_of, is_junction};
ghost use Rattle.cell_store.specs.StoreView.{IsValueIn, meaning};
ghost use Rattle.meta_call.specs.OwnBodies.{IsOwnBody, IsBodyPart, KeepsPartOr};

use au_term::{Atom, Cell, FlatTerm, NoMemory, TermBuilder};
use binding_array::BindingCell;
use cell_store::Store;
use std::alloc::Global;

/// What stands where a goal is due.
#[derive(Clone, Copy, Debug)]
pub(crate) enum BodyPart {
    Variable(u32),
    Integer,
    /// Goals are due on both sides; the name is given by its number.
    Junction {
        name: u32,
        left: BindingCell,
        right: BindingCell,
    },
    /// An atom or another compound.
    Goal,
}

/// What a value stands for where a goal is due.
fn part_of_body(store: &Store, value: BindingCell) -> BodyPart
    requires { IsValueIn store.now value }
    ensures { IsBodyPart store.now value result }
{
    match store.dereference(value) {
        BindingCell::Free => unreachable!(),
        BindingCell::Var(number) => BodyPart::Variable(number),
        BindingCell::Int(_) => BodyPart::Integer,
        BindingCell::Atom(_) => BodyPart::Goal,
        BindingCell::Compound(at, base) => {
            let (name, count) = store.functor(at);
            if count != 2 || !is_junction(store.name(name)) {
                return BodyPart::Goal;
            }
            BodyPart::Junction {
                name,
                left: store.argument(at + 1, base),
                right: store.argument(at + 2, base),
            }
        }
    }
}

/// Whether goals are due on both sides of a compound of this name with two arguments.
fn is_junction(name: &Atom) -> bool
    ensures { result ≡ is_junction name.now }
{
    name.is_text(",") || name.is_text(";") || name.is_text("->")
}

/// Whether a value stands for a term that is its own body.
pub(crate) fn is_own_body(
    alloc: Global,
    store: &Store,
    value: BindingCell,
) -> Result<bool, NoMemory>
    requires { IsValueIn store.now value }
    ensures { IfOk result (λ own. IsTrue own ↔ IsOwnBody (meaning store.now value)) }
{
    let mut pending = Vec::new(alloc);
    let mut next = Some(value);
    while let Some(value) = next {
        match part_of_body(store, value) {
            BodyPart::Variable(_) | BodyPart::Integer => return Ok(false),
            BodyPart::Junction { left, right, .. } => {
                pending.push(right)?;
                next = Some(left);
            }
            BodyPart::Goal => next = pending.pop(),
        }
    }
    Ok(true)
}

/// The body that a value stands for, if it stands for one: a call of each variable that is where a goal is due.
pub(crate) fn made_body(
    alloc: Global,
    store: &Store,
    value: BindingCell,
) -> Result<Option<FlatTerm>, NoMemory>
    requires { IsValueIn store.now value }
    ensures { IfOk result (λ kept. kept ≡ body_of (meaning store.now value)) }
{
    let mut builder = TermBuilder::new(alloc);
    let mut pending = Vec::new(alloc);
    pending.push(value)?;
    while let Some(value) = pending.pop() {
        if !keep_part(alloc, store, value, &mut builder, &mut pending)? {
            return Ok(None);
        }
    }
    Ok(Some(builder.finish()))
}

/// Keeps what stands where a goal is due; both sides of a junction are pending then. Answers whether a goal can be there.
fn keep_part(
    alloc: Global,
    store: &Store,
    value: BindingCell,
    builder: &mut TermBuilder,
    pending: &mut Vec<BindingCell>,
) -> Result<bool, NoMemory>
    requires there { IsValueIn store.now value }
    requires due { 0 < due_after 1 builder.old }
    ensures { IfOk result (KeepsPartOr store.now value builder.old builder.new pending.old.items pending.new.items) }
{
    match part_of_body(store, value) {
        BodyPart::Variable(number) => push_call(alloc, number, builder)?,
        BodyPart::Integer => return Ok(false),
        BodyPart::Junction { name, left, right } => {
            builder.push(Cell::Functor(store.name(name).share()?, 2))?;
            pending.push(right)?;
            pending.push(left)?;
        }
        BodyPart::Goal => {
            let goal = store.resolve(value)?;
            builder.push_all(goal.cells())?;
        }
    }
    Ok(true)
}

/// Puts a call of a variable after the cells of the builder.
fn push_call(alloc: Global, number: u32, builder: &mut TermBuilder) -> Result<(), NoMemory>
    requires { 0 < due_after 1 builder.old }
    ensures { OnOk result (builder.new ≡ builder.old ++ cells_of (call_of (VarTerm number))) }
{
    builder.push(Cell::Functor(Atom::ascii(alloc, "call")?, 1))?;
    builder.push(Cell::Var(u64::from(number)))
}
