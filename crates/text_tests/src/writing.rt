//! Written terms, by ISO/IEC 13211-1, 6.3.4 and 7.10.5.

use crate::common::{expect, hold};
use au_model::{Style, VarName};
use au_term::{Atom, Cell, FlatTerm, NoMemory, TermBuilder};
use op_table::Ops;
use std::alloc::Global;
use std::process::Abort;
use std::test::Fail;
use term_writer::{answer_line, ball_line, write_into};

/// A cell of a term: a variable, an integer, an atom, or a compound's name and number of arguments.
#[derive(Clone, Copy)]
enum Part {
    V(u32),
    I(i64),
    A(&'static str),
    F(&'static str, u16),
}

use Part::{A, F, I, V};

/// A term's cells, and its quoted text.
type Row = (&'static [Part], &'static str);

static QUOTED: [Row; 62] = [
    (&[F(".", 2), A("a"), A("b")], "[a|b]"),
    (&[F(".", 2), A("a"), F(".", 2), A("b"), A("[]")], "[a,b]"),
    (&[F("-", 1), I(1)], "- 1"),
    (&[I(-1)], "-1"),
    (&[I(-9223372036854775808)], "-9223372036854775808"),
    (&[F("-", 2), I(1), I(-1)], "1- -1"),
    (&[F("-", 2), A("a"), I(-1)], "a- -1"),
    (&[F("-", 1), F("-", 1), I(1)], "- - 1"),
    (&[F("-", 1), I(-1)], "- -1"),
    (&[F("-", 1), A("a")], "-a"),
    (&[F("-", 1), F("-", 1), A("a")], "- -a"),
    (&[F("-", 1), A("-")], "- (-)"),
    (&[F("\\+", 1), A("a")], "\\+a"),
    (&[F("\\+", 1), F(",", 2), A("a"), A("b")], "\\+ (a,b)"),
    (&[A("hello world")], "'hello world'"),
    (&[A("it's")], "'it\\'s'"),
    (&[A("a\\b")], "'a\\\\b'"),
    (
        &[F("f", 2), A(","), F(",", 2), A("a"), A("b")],
        "f(',',(a,b))",
    ),
    (&[F(":-", 2), A("a"), F(",", 2), A("b"), A("c")], "a :- b,c"),
    (
        &[F(":-", 2), F(":-", 2), A("a"), A("b"), A("c")],
        "(a :- b) :- c",
    ),
    (&[F("=", 2), A("a"), A("b")], "a = b"),
    (&[F("=", 2), A("a"), A("\\+")], "a = (\\+)"),
    (&[F(".", 2), A("-"), A("[]")], "[-]"),
    (
        &[F(".", 2), A("-"), F(":-", 2), A("a"), A("b")],
        "[-|(a :- b)]",
    ),
    (
        &[F(".", 2), F(":-", 2), A("a"), A("b"), V(0)],
        "[(a :- b)|_0]",
    ),
    (&[F("{}", 1), A("-")], "{-}"),
    (&[F("{}", 1), F(",", 2), A("a"), A("b")], "{a,b}"),
    (&[F("{}", 2), A("x"), A("y")], "{}(x,y)"),
    (&[F("[]", 1), A("x")], "[](x)"),
    (&[F("f", 2), A(":-"), A("a")], "f(:-,a)"),
    (&[F("f", 1), F(":-", 2), A("a"), A("b")], "f((a :- b))"),
    (
        &[F(";", 2), F("->", 2), A("a"), A("b"), A("c")],
        "a -> b ; c",
    ),
    (&[F("-", 2), I(1), F("-", 2), I(2), I(3)], "1-(2-3)"),
    (&[F("-", 2), F("-", 2), I(1), I(2), I(3)], "1-2-3"),
    (&[F("**", 2), I(2), F("**", 2), I(3), I(4)], "2**(3**4)"),
    (&[F("^", 2), I(2), F("^", 2), I(3), I(4)], "2^3^4"),
    (&[F("^", 2), F("^", 2), I(2), I(3), I(4)], "(2^3)^4"),
    (&[F("-", 1), F("^", 2), I(1), I(2)], "- 1^2"),
    (&[F("^", 2), I(-1), I(2)], "-1^2"),
    (&[F("^", 2), F("-", 1), I(1), I(2)], "(- 1)^2"),
    (&[F("\\", 1), I(-1)], "\\ -1"),
    (&[F("*", 2), A("*"), A("*")], "(*)*(*)"),
    (&[F("-", 2), A("-"), F("-", 1), I(1)], "(-)- - 1"),
    (&[F("-", 2), I(1), F(":-", 1), A("a")], "1-(:-a)"),
    (
        &[F("is", 2), V(0), F("mod", 2), I(7), I(2)],
        "_0 is 7 mod 2",
    ),
    (&[F("/", 2), A("is"), I(2)], "(is)/2"),
    (&[F("/\\", 2), A("a"), A("b")], "a/\\b"),
    (&[A("\n")], "'\\n'"),
    (&[A("\t")], "'\\x9\\'"),
    (&[A("\u{0}\u{1f}\u{7f}")], "'\\x0\\\\x1f\\\\x7f\\'"),
    (&[A("")], "''"),
    (&[A("[]")], "[]"),
    (&[A("{}")], "{}"),
    (&[A("!")], "!"),
    (&[A(";")], ";"),
    (&[A("/*")], "'/*'"),
    (&[A(".")], "'.'"),
    (&[A("..")], ".."),
    (&[A("A")], "'A'"),
    (&[A("\u{e9}t\u{e9}")], "\u{e9}t\u{e9}"),
    (&[A("\u{c9}")], "'\u{c9}'"),
    (&[F("hello world", 1), V(12)], "'hello world'(_12)"),
];

static PLAIN: [Row; 6] = [
    (&[A("hello world")], "hello world"),
    (&[F("-", 1), A("A b")], "-A b"),
    (&[F("f", 2), A(""), A("it's")], "f(,it's)"),
    (&[F("-", 1), I(1)], "- 1"),
    (&[F(",", 2), A(","), A("\n")], "(,),\n"),
    (&[F("{}", 1), A("B")], "{B}"),
];

static CANONICAL: [Row; 6] = [
    (&[F("-", 1), I(1)], "-(1)"),
    (&[F("+", 2), I(1), F(".", 2), A("-"), A("[]")], "+(1,[-])"),
    (&[F("{}", 1), A("x")], "{}(x)"),
    (&[F(",", 2), A("a"), I(-1)], "','(a,-1)"),
    (&[F(".", 2), F(":-", 1), A("a"), A("A")], "[:-(a)|'A']"),
    (&[F("=", 2), A("="), A("=")], "=(=,=)"),
];

/// The values of an answer.
static VALUES: [Row; 8] = [
    (&[A("-")], "X = (-)\n"),
    (&[F(",", 2), A("a"), A("b")], "X = (a,b)\n"),
    (&[F(":-", 2), A("a"), A("b")], "X = (a :- b)\n"),
    (&[F("=", 2), A("a"), A("b")], "X = (a = b)\n"),
    (&[F("-", 1), I(1)], "X = - 1\n"),
    (&[A("A b")], "X = 'A b'\n"),
    (&[F("\\+", 1), A("a")], "X = (\\+a)\n"),
    (&[F("-", 2), I(1), V(0)], "X = 1-_0\n"),
];

fn cell(alloc: Global, part: Part) -> Result<Cell, NoMemory> {
    Ok(match part {
        V(number) => Cell::Var(u64::from(number)),
        I(value) => Cell::Int(value),
        A(name) => Cell::Atom(Atom::new(alloc, name)?),
        F(name, arity) => Cell::Functor(Atom::new(alloc, name)?, u32::from(arity)),
    })
}

/// The term of these cells.
fn term(alloc: Global, parts: &[Part]) -> Result<FlatTerm, NoMemory> {
    let mut builder = TermBuilder::new(alloc);
    for part in parts {
        let cell = cell(alloc, *part)?;
        push(&mut builder, cell)?;
    }
    finish(builder)
}

fn push(builder: &mut TermBuilder, cell: Cell) -> Result<(), NoMemory> {
    let is_sound = match &cell {
        Cell::Var(number) => *number < u64::MAX,
        Cell::Functor(_, arity) => 0 < *arity && *arity < 65536,
        _ => true,
    };
    if builder.missing() == 0 || !is_sound {
        return Err(NoMemory);
    }
    builder.push(cell)
}

fn finish(builder: TermBuilder) -> Result<FlatTerm, NoMemory> {
    if builder.missing() > 0 {
        return Err(NoMemory);
    }
    Ok(builder.finish())
}

/// Whether a term is written so, behind what was there.
fn is_written(
    alloc: Global,
    parts: &[Part],
    ops: &Ops,
    style: Style,
    text: &str,
) -> Result<bool, NoMemory> {
    let mut out = Vec::new(alloc);
    out.push(b'>')?;
    write_into(alloc, &mut out, &term(alloc, parts)?, ops, style)?;
    Ok(&out[1..] == text.as_bytes())
}

fn check(rt: &impl Abort, alloc: Global, rows: &[Row], style: Style) -> Result<(), NoMemory> {
    let ops = Ops::initial(alloc)?;
    for (parts, text) in rows {
        hold(rt, is_written(alloc, parts, &ops, style, text)?, text);
    }
    Ok(())
}

/// A term for each name.
fn values(alloc: Global, names: &[VarName], parts: &[Part]) -> Result<Vec<FlatTerm>, NoMemory> {
    let mut values = Vec::new(alloc);
    for _ in names {
        values.push(term(alloc, parts)?)?;
    }
    Ok(values)
}

/// Whether the line of an answer is this, where each name has the same value.
fn is_answer(
    alloc: Global,
    names: &[VarName],
    parts: &[Part],
    text: &str,
) -> Result<bool, NoMemory> {
    let values = values(alloc, names, parts)?;
    let mut out = Vec::new(alloc);
    answer_line(alloc, &mut out, names, &values, &Ops::initial(alloc)?)?;
    Ok(out.as_slice() == text.as_bytes())
}

fn names(alloc: Global, texts: &[&str]) -> Result<Vec<VarName>, NoMemory> {
    let mut names = Vec::new(alloc);
    for text in texts {
        names.push(name(alloc, text)?)?;
    }
    Ok(names)
}

fn name(alloc: Global, text: &str) -> Result<VarName, NoMemory> {
    Ok(VarName {
        text: String::from_str(alloc, text)?,
        number: 0,
    })
}

#[test]
fn terms_in_each_style(rt: HostRuntime) -> Result<(), Fail> {
    check(&rt, rt.alloc(), &QUOTED, Style::Quoted)?;
    check(&rt, rt.alloc(), &PLAIN, Style::Plain)?;
    check(&rt, rt.alloc(), &CANONICAL, Style::Canonical)?;
    Ok(())
}

fn check_answer(
    rt: &impl Abort,
    alloc: Global,
    texts: &[&str],
    parts: &[Part],
    text: &str,
) -> Result<(), NoMemory> {
    let names = names(alloc, texts)?;
    hold(rt, is_answer(alloc, &names, parts, text)?, text);
    Ok(())
}

#[test]
fn lines_of_answers(rt: HostRuntime) -> Result<(), Fail> {
    let alloc = rt.alloc();
    check_answer(&rt, alloc, &[], &[A("a")], "true\n")?;
    for (parts, text) in &VALUES {
        check_answer(&rt, alloc, &["X"], parts, text)?;
    }
    check_answer(&rt, alloc, &["X", "Y"], &[A("=")], "X = (=), Y = (=)\n")?;
    Ok(())
}

fn push_ball(alloc: Global, out: &mut Vec<u8>, parts: &[Part]) -> Result<(), NoMemory> {
    ball_line(alloc, out, &term(alloc, parts)?, &Ops::initial(alloc)?)
}

/// Whether the line of a ball is this, behind that of another.
fn is_second_ball(alloc: Global, parts: &[Part], lines: &str) -> Result<bool, NoMemory> {
    let mut out = Vec::new(alloc);
    push_ball(alloc, &mut out, &[A("b")])?;
    push_ball(alloc, &mut out, parts)?;
    Ok(out.as_slice() == lines.as_bytes())
}

#[test]
fn lines_of_balls(rt: HostRuntime) -> Result<(), Fail> {
    let lines = "error: b\nerror: -\n";
    hold(&rt, is_second_ball(rt.alloc(), &[A("-")], lines)?, lines);
    Ok(())
}

/// Adds cells that others share.
fn push_shared(builder: &mut TermBuilder, cells: &[Cell]) -> Result<(), NoMemory> {
    for cell in cells {
        push(builder, cell.share()?)?;
    }
    Ok(())
}

/// Adds cells that others share so many times.
fn push_many(builder: &mut TermBuilder, count: u32, cells: &[Cell]) -> Result<(), NoMemory> {
    for _ in 0..count {
        push_shared(builder, cells)?;
    }
    Ok(())
}

fn cells(alloc: Global, parts: &[Part]) -> Result<Vec<Cell>, NoMemory> {
    let mut cells = Vec::new(alloc);
    for part in parts {
        cells.push(cell(alloc, *part)?)?;
    }
    Ok(cells)
}

/// A list of so many items, or so many compounds one in another, with its end.
fn long(alloc: Global, count: u32, parts: &[Part], end: Part) -> Result<FlatTerm, NoMemory> {
    let mut builder = TermBuilder::new(alloc);
    push_many(&mut builder, count, &cells(alloc, parts)?)?;
    push(&mut builder, cell(alloc, end)?)?;
    finish(builder)
}

/// How many bytes such a term is written in.
fn length(alloc: Global, count: u32, parts: &[Part], end: Part) -> Result<usize, NoMemory> {
    let term = long(alloc, count, parts, end)?;
    let mut out = Vec::new(alloc);
    write_into(alloc, &mut out, &term, &Ops::initial(alloc)?, Style::Quoted)?;
    Ok(out.len())
}

/// Long and deep terms, and how many bytes they are written in.
static LONG: [(u32, &[Part], Part, usize); 3] = [
    (1_000_000, &[F(".", 2), I(1)], A("[]"), 2_000_001),
    (1_000_000, &[F("f", 1)], A("a"), 3_000_001),
    (100_000, &[F("-", 1)], A("a"), 200_000),
];

#[test]
fn deep_and_long_terms(rt: HostRuntime) -> Result<(), Fail> {
    for (count, parts, end, bytes) in &LONG {
        expect(
            &rt,
            length(rt.alloc(), *count, parts, *end)?,
            *bytes,
            "long",
        );
    }
    Ok(())
}
