//! What a first argument can be told by.
ghost use Rattle.std.specs.Prelude.{◌≡◌, IfOk};
ghost use Rattle.proc_index.specs.Keys.{cell_key, head_key, is_any};
ghost use Rattle.proc_index.specs.Laws.{tell_apart};

use au_term::{Atom, Cell, FlatTerm, NoMemory};

/// The key of a first argument: its integer, its atom, or its name and number of arguments. `Any` stands for all.
#[derive(PartialEq, Eq, PartialOrd, Ord, Drop)]
pub enum Key {
    Any,
    Int(i64),
    Atom(Atom),
    Functor(Atom, u32),
}

/// Whether the first cells of two terms tell them apart: neither is a variable's, and their keys differ.
pub fn cells_tell_apart(left: &Cell, right: &Cell) -> bool
    ensures { result ≡ tell_apart (cell_key left.now) (cell_key right.now) }
{
    match (left, right) {
        (Cell::Var(_), _) | (_, Cell::Var(_)) => false,
        (Cell::Int(y), Cell::Int(z)) => *y != *z,
        (Cell::Atom(a), Cell::Atom(b)) => !a.same(b),
        (Cell::Functor(f, m), Cell::Functor(g, n)) => *m != *n || !f.same(g),
        _ => true,
    }
}

impl Key {
    /// The key of a head's first argument; `Any` for a variable and for a head without arguments.
    pub(crate) fn of_head(head: &FlatTerm) -> Result<Key, NoMemory>
        ensures { IfOk result (λ key. key ≡ head_key head.now) }
    {
        match head.cells() {
            [_, first, ..] => Key::of_cell(first),
            _ => Ok(Key::Any),
        }
    }

    /// The key of a term that begins with this cell.
    pub fn of_cell(cell: &Cell) -> Result<Key, NoMemory>
        ensures { IfOk result (λ key. key ≡ cell_key cell.now) }
    {
        Ok(match cell {
            Cell::Var(_) => Key::Any,
            Cell::Int(value) => Key::Int(*value),
            Cell::Atom(name) => Key::Atom(name.share()?),
            Cell::Functor(name, arity) => Key::Functor(name.share()?, *arity),
        })
    }

    /// Whether it stands for all.
    pub(crate) fn is_any(&self) -> bool
        ensures { result ≡ is_any self.now }
    {
        matches!(self, Key::Any)
    }
}
