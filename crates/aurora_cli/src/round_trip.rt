//! Terms that are written are read again, by the writer and the reader themselves: the terms of certain texts, and made
//! ones, under three operator tables.

ghost use Rattle.std.specs.Prelude.{◌<◌};

use au_model::copies::copy_term;
use au_model::{DoubleQuotes, Style};
use au_term::{Atom, Cell, FlatTerm, NoMemory, TermBuilder};
use op_table::{OpKind, OpRow, Operator, Ops};
use sample_runs::numbers::Numbers;
use sample_runs::terms::TERMS;
use std::alloc::Global;
use std::process::Abort;
use std::test::Fail;
use term_reader::{ReadOutcome, read_term};
use term_writer::write_into;

/// A name, its priority and kind.
type Entry = (&'static str, u16, OpKind);

/// Operators of all kinds: symbols and words, one name as prefix and as postfix operator, names that need quotes.
static FURTHER: [Entry; 14] = [
    ("===>", 700, OpKind::Xfx),
    ("!!", 300, OpKind::Yf),
    ("post", 200, OpKind::Yf),
    ("~", 200, OpKind::Fy),
    ("~", 200, OpKind::Xf),
    ("pre", 200, OpKind::Fy),
    ("both", 400, OpKind::Yfx),
    ("both", 900, OpKind::Fx),
    ("A b", 500, OpKind::Xfy),
    ("it's", 500, OpKind::Fy),
    (".", 400, OpKind::Yfx),
    ("!", 1150, OpKind::Fx),
    ("dynamic", 1150, OpKind::Fx),
    ("|", 1100, OpKind::Xfy),
];

/// Operators that take the place of the first ones: the minus is loose, the comma's neighbours are tight.
static TURNED: [Entry; 12] = [
    ("-", 1000, OpKind::Fx),
    ("-", 200, OpKind::Xfy),
    ("+", 900, OpKind::Fx),
    ("\\", 1200, OpKind::Fy),
    ("=", 1200, OpKind::Yfx),
    (":-", 100, OpKind::Fy),
    (";", 1, OpKind::Xfx),
    ("->", 999, OpKind::Yfx),
    ("is", 999, OpKind::Fy),
    ("post", 1000, OpKind::Xf),
    ("f", 1100, OpKind::Xfy),
    ("f", 1100, OpKind::Fy),
];

/// Names of made terms.
static NAMES: [&str; 24] = [
    "a", "both", "f", "-", "+", "\\", "*", "=", ":-", ",", ";", "->", "|", "[]", "{}", ".", "!",
    "!!", "post", "pre", "A b", "it's", "", "is",
];

/// A table with further operators.
fn table(rt: &impl Abort, alloc: Global, entries: &[Entry]) -> Result<Ops, Fail> {
    let mut ops = Ops::initial(alloc)?;
    for (name, priority, kind) in entries {
        let operator = Operator {
            priority: *priority,
            kind: *kind,
        };
        let name = Atom::new(alloc, name)?;
        let row = OpRow { name, operator };
        assert!(rt; ops.may_put(&row));
        ops.put(row)?;
    }
    Ok(ops)
}

/// The term at the front of a text.
fn read(
    rt: &impl Abort,
    alloc: Global,
    text: &str,
    ops: &Ops,
    quotes: DoubleQuotes,
) -> Result<FlatTerm, Fail> {
    assert!(rt; text.is_char_boundary(0));
    let outcome = read_term(alloc, text, 0, ops, quotes);
    let Ok(ReadOutcome::Read { term, names, end }) = outcome else {
        assert!(rt; false, "{text}");
        return Err(Fail::from(NoMemory));
    };
    assert!(rt; names.len() <= text.len(), "{text}");
    assert_eq!(rt; end, text.len(), "{text}");
    Ok(term)
}

/// Writes a term quoted, reads it again, and compares it with its copy whose variables are numbered from 0.
fn there_and_back(
    rt: &impl Abort,
    alloc: Global,
    term: &FlatTerm,
    ops: &Ops,
    quotes: DoubleQuotes,
) -> Result<(), Fail> {
    let mut bytes = Vec::new(alloc);
    write_into(alloc, &mut bytes, term, ops, Style::Quoted)?;
    bytes.extend_from_slice(b" .")?;
    let text = String::from_utf8(bytes)?;
    let again = read(rt, alloc, &text, ops, quotes)?;
    let (wanted, _) = copy_term(alloc, term, 0)?;
    assert!(rt; again.cells() == wanted.cells(), "{text}");
    Ok(())
}

#[test]
fn texts(rt: HostRuntime) -> Result<(), Fail> {
    let alloc = rt.alloc();
    let ops = table(&rt, alloc, &FURTHER)?;
    for term in TERMS {
        let text = format!(in alloc; "{term}.")?;
        let term = read(&rt, alloc, text.as_str(), &ops, DoubleQuotes::Codes)?;
        there_and_back(&rt, alloc, &term, &ops, DoubleQuotes::Atom)?;
    }
    Ok(())
}

/// Puts a cell: a leaf where the term has cells enough.
fn put(
    rt: &impl Abort,
    alloc: Global,
    numbers: &mut Numbers,
    is_full: bool,
    builder: &mut TermBuilder,
) -> Result<(), Fail> {
    assert!(rt; builder.missing() > 0);
    let choice = numbers.below(10);
    let name = Atom::new(alloc, NAMES[numbers.below(24)])?;
    if choice < 2 {
        let number = numbers.below(4) as u64;
        builder.push(Cell::Var(number))?;
    } else if choice < 4 {
        let value = numbers.below(5) as i64 - 2;
        builder.push(Cell::Int(value))?;
    } else if is_full || choice < 6 {
        builder.push(Cell::Atom(name))?;
    } else {
        let arity = if choice < 8 { 1 } else { 2 };
        builder.push(Cell::Functor(name, arity))?;
    }
    Ok(())
}

/// A made term of about so many cells.
fn made(
    rt: &impl Abort,
    alloc: Global,
    numbers: &mut Numbers,
    most: usize,
) -> Result<FlatTerm, Fail> {
    let mut builder = TermBuilder::new(alloc);
    for count in 0..100 {
        if builder.missing() == 0 {
            break;
        }
        put(rt, alloc, numbers, count >= most, &mut builder)?;
    }
    assert_eq!(rt; builder.missing(), 0);
    Ok(builder.finish())
}

#[test]
fn made_terms(rt: HostRuntime) -> Result<(), Fail> {
    let alloc = rt.alloc();
    let tables = [
        Ops::initial(alloc)?,
        table(&rt, alloc, &FURTHER)?,
        table(&rt, alloc, &TURNED)?,
    ];
    let mut numbers = Numbers::from(1);
    for ops in &tables {
        for count in 0..1500 {
            let term = made(&rt, alloc, &mut numbers, count % 12)?;
            there_and_back(&rt, alloc, &term, ops, DoubleQuotes::Codes)?;
        }
    }
    Ok(())
}
