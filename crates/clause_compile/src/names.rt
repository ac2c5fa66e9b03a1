//! The names that bodies are told by.
ghost use Rattle.std.specs.Prelude.{◌≡◌};
ghost use Rattle.clause_compile.specs.BodyCells.{opens_junction, opens_conjunction, opens_plain_goal, is_true};

use au_term::Cell;

/// Whether a cell begins a compound in which goals are due on both sides.
pub fn is_junction_cell(cell: &Cell) -> bool
    ensures { result ≡ opens_junction cell.now }
{
    match cell {
        Cell::Functor(name, arguments) => {
            *arguments == 2 && (name.is_text(",") || name.is_text(";") || name.is_text("->"))
        }
        _ => false,
    }
}

/// Whether a cell begins a conjunction.
pub fn is_conjunction_cell(cell: &Cell) -> bool
    ensures { result ≡ opens_conjunction cell.now }
{
    match cell {
        Cell::Functor(name, arguments) => *arguments == 2 && name.is_text(","),
        _ => false,
    }
}

/// Whether a cell begins a goal without further goals in it.
pub(crate) fn is_plain_goal(cell: &Cell) -> bool
    ensures { result ≡ opens_plain_goal cell.now }
{
    match cell {
        Cell::Var(_) | Cell::Int(_) => false,
        _ => !is_junction_cell(cell),
    }
}

/// Whether a cell is the atom `true`.
pub(crate) fn is_true_cell(cell: &Cell) -> bool
    ensures { result ≡ is_true cell.now }
{
    match cell {
        Cell::Atom(name) => name.is_text("true"),
        _ => false,
    }
}
