//! Keys of heads, and the positions of clauses by key.
ghost use Rattle.std.specs.Prelude.{◌≡◌, ℕ, ◌&&◌, Bool, true, false, cond, IfOk, OnErr, OnOk};
ghost use Rattle.std.specs.Ordering.{nat_cmp};
ghost use Rattle.std.specs.BTreeMap.{is_at};
ghost use Rattle.au_model.specs.Terms.Forms.{is_callable};
ghost use Rattle.proc_index.specs.Keys.{cell_key, head_key, is_any};
ghost use Rattle.proc_index.specs.ProcedureIndex.{key_cmp};
ghost use Rattle.dyn_clauses.specs.PositionIndex.{is_noted, is_place};

use au_term::{Cell, FlatTerm, NoMemory};
use proc_index::Key;
use std::alloc::Global;
use std::collections::{BTreeMap, BTreeSet};

/// The positions of clauses by the key of their heads' first arguments.
pub(crate) type Index = BTreeMap<Key, BTreeSet<u64>>;

/// The key of a head's first argument; `Any` for a variable and for a head without arguments.
pub(crate) fn key_of_head(head: &FlatTerm) -> Result<Key, NoMemory>
    ensures { IfOk result (λ key. key ≡ head_key head.now) }
{
    match head.cells() {
        [_, first, ..] => key_of_cell(first),
        _ => Ok(Key::Any),
    }
}

/// The key of a term that begins with this cell.
fn key_of_cell(cell: &Cell) -> Result<Key, NoMemory>
    ensures { IfOk result (λ key. key ≡ cell_key cell.now) }
{
    Ok(match cell {
        Cell::Var(_) => Key::Any,
        Cell::Int(value) => Key::Int(*value),
        Cell::Atom(name) => Key::Atom(name.share()?),
        Cell::Functor(name, arity) => Key::Functor(name.share()?, *arity),
    })
}

/// Whether a key stands for all.
pub(crate) fn is_any(key: &Key) -> bool
    ensures { result ≡ is_any key.now }
{
    matches!(key, Key::Any)
}

/// The same key.
fn share(key: &Key) -> Result<Key, NoMemory>
    ensures { IfOk result (λ k. k ≡ key.now) }
{
    Ok(match key {
        Key::Any => Key::Any,
        Key::Int(value) => Key::Int(*value),
        Key::Atom(name) => Key::Atom(name.share()?),
        Key::Functor(name, arity) => Key::Functor(name.share()?, *arity),
    })
}

/// Notes a position under a key.
pub(crate) fn note(
    alloc: Global,
    index: &mut Index,
    key: &Key,
    position: u64,
) -> Result<(), NoMemory>
    ensures ok { OnOk result ((k : Key) (q : ℕ) → is_noted index.new k q ≡ cond (is_place key.now position k q) true (is_noted index.old k q)) }
    ensures err { OnErr result ((k : Key) (q : ℕ) → is_noted index.new k q ≡ is_noted index.old k q) }
{
    if let Some(positions) = index.get_mut(key) {
        positions.insert(position)?;
        return Ok(());
    }
    let mut positions = BTreeSet::new(alloc);
    positions.insert(position)?;
    index.insert(share(key)?, positions)?;
    Ok(())
}

/// Takes a position from under a key.
pub(crate) fn forget(index: &mut Index, key: &Key, position: u64)
    ensures { (k : Key) (q : ℕ) → is_noted index.new k q ≡ cond (is_place key.now position k q) false (is_noted index.old k q) }
{
    let Some(positions) = index.get_mut(key) else {
        return;
    };
    positions.remove(&position);
    if positions.is_empty() {
        index.remove(key);
    }
}
