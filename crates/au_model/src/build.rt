//! Terms built of names and other terms.
ghost use Rattle.std.specs.Prelude.{◌≡◌, ◌<◌, ◌≤◌, IfOk, length, map, ◌∷◌, []};
ghost use Rattle.std.specs.Str.{IsAscii};
ghost use Rattle.au_term.specs.Term.{AtomTerm, Compound};
ghost use Rattle.au_term.specs.PrefixOrder.{IsValidCell, arity, cells_of};
ghost use Rattle.au_model.specs.Terms.Forms.{unary, binary, indicator, list_term};
ghost use Rattle.au_model.specs.Terms.Lists.{terms_from};

use au_term::{Atom, Cell, FlatTerm, NoMemory, TermBuilder};
use std::alloc::Global;

/// The atom of a name.
pub fn atom(alloc: Global, name: &str) -> Result<FlatTerm, NoMemory>
    requires { IsAscii name.now }
    ensures { IfOk result (λ t. t ≡ AtomTerm name.now) }
{
    single(alloc, Cell::Atom(Atom::ascii(alloc, name)?))
}

/// A compound of this name with one argument.
pub fn unary(alloc: Global, name: &str, argument: &FlatTerm) -> Result<FlatTerm, NoMemory>
    requires { IsAscii name.now }
    ensures { IfOk result (λ t. t ≡ unary name.now argument.now) }
{
    compound(alloc, Atom::ascii(alloc, name)?, &[argument])
}

/// A compound of this name with two arguments.
pub fn binary(
    alloc: Global,
    name: &str,
    left: &FlatTerm,
    right: &FlatTerm,
) -> Result<FlatTerm, NoMemory>
    requires { IsAscii name.now }
    ensures { IfOk result (λ t. t ≡ binary name.now left.now right.now) }
{
    compound(alloc, Atom::ascii(alloc, name)?, &[left, right])
}

/// A procedure's name and number of arguments, as a term (ISO/IEC 13211-1, 7.1.6.6).
pub fn indicator(alloc: Global, name: &Atom, arity: u32) -> Result<FlatTerm, NoMemory>
    ensures { IfOk result (λ t. t ≡ indicator name.now arity) }
{
    let name = single(alloc, Cell::Atom(name.share()?))?;
    let arity = single(alloc, Cell::Int(i64::from(arity)))?;
    binary(alloc, "/", &name, &arity)
}

/// A compound of this name with these arguments.
pub fn compound(alloc: Global, name: Atom, arguments: &[&FlatTerm]) -> Result<FlatTerm, NoMemory>
    requires some { 0 < length arguments.now }
    requires most { length arguments.now ≤ 65535 }
    ensures { IfOk result (λ t. t ≡ Compound name (terms_from (map (λ a. a.now) arguments.now))) }
{
    let mut builder = TermBuilder::new(alloc);
    builder.push(Cell::Functor(name, arguments.len() as u32))?;
    for argument in arguments {
        builder.push_all(argument.cells())?;
    }
    Ok(builder.finish())
}

/// A compound of this name with these arguments.
pub fn compound_of(alloc: Global, name: Atom, arguments: &[FlatTerm]) -> Result<FlatTerm, NoMemory>
    requires some { 0 < length arguments.now }
    requires most { length arguments.now ≤ 65535 }
    ensures { IfOk result (λ t. t ≡ Compound name (terms_from arguments.now)) }
{
    let mut builder = TermBuilder::new(alloc);
    builder.push(Cell::Functor(name, arguments.len() as u32))?;
    for argument in arguments {
        builder.push_all(argument.cells())?;
    }
    Ok(builder.finish())
}

/// The list of these terms.
pub fn list_of(alloc: Global, items: &[FlatTerm]) -> Result<FlatTerm, NoMemory>
    ensures { IfOk result (λ t. t ≡ list_term items.now) }
{
    let nil = atom(alloc, "[]")?;
    let mut builder = TermBuilder::new(alloc);
    for item in items {
        builder.push(Cell::Functor(Atom::ascii(alloc, ".")?, 2))?;
        builder.push_all(item.cells())?;
    }
    builder.push_all(nil.cells())?;
    Ok(builder.finish())
}

/// The term of one cell.
pub fn single(alloc: Global, cell: Cell) -> Result<FlatTerm, NoMemory>
    requires sound { IsValidCell cell }
    requires alone { arity cell ≡ 0 }
    ensures { IfOk result (λ t. cells_of t ≡ cell ∷ []) }
{
    let mut builder = TermBuilder::new(alloc);
    builder.push(cell)?;
    Ok(builder.finish())
}
