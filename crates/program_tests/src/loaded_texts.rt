//! Texts loaded: what no clause gives, which jobs certain texts make.

use crate::common::{expect as same, hold};
use au_model::FaultKind;
use au_model::names::name_of;
use au_term::{Atom, Cell, NoMemory};
use clause_compile::Clause;
use dyn_clauses::{Indicator, Snapshot};
use std::alloc::Global;
use std::process::Abort;
use std::sync::Arc;
use std::test::Fail;
use text_load::{Job, LoadRefusal, Query, load};

/// What a procedure is in a job, with how many clauses it has.
#[derive(Clone, Copy, Debug, PartialEq, Eq)]
enum Standing {
    Static(usize),
    Dynamic(usize),
    Unknown,
}

fn indicator(alloc: Global, name: &str, arity: u32) -> Result<Indicator, Fail> {
    let name = Atom::new(alloc, name)?;
    Ok(Indicator { name, arity })
}

/// How many static clauses a procedure has.
fn static_count(alloc: Global, job: &Job, name: &str, arity: u32) -> Result<usize, Fail> {
    let name = Atom::new(alloc, name)?;
    let mut count: usize = 0;
    for clause in job.clauses() {
        let head = clause.head();
        if head.arity() == arity && name_of(head) == &name {
            count = count.saturating_add(1);
        }
    }
    Ok(count)
}

fn standing_of(alloc: Global, job: &Job, name: &str, arity: u32) -> Result<Standing, Fail> {
    let procedure = indicator(alloc, name, arity)?;
    Ok(match job.database().snapshot(&procedure)? {
        Snapshot::Unknown => Standing::Unknown,
        Snapshot::Static => Standing::Static(static_count(alloc, job, name, arity)?),
        Snapshot::Clauses(clauses) => Standing::Dynamic(clauses.len()),
    })
}

fn expect_all(
    rt: &impl Abort,
    alloc: Global,
    job: &Job,
    text: &str,
    procedures: &[(&str, u32, Standing)],
) -> Result<(), Fail> {
    for (name, arity, wanted) in procedures {
        let found = standing_of(alloc, job, name, *arity)?;
        same(rt, (*name, *arity, found), (*name, *arity, *wanted), text);
    }
    Ok(())
}

/// The procedures of the job of a library and a text.
fn expect(
    rt: &impl Abort,
    alloc: Global,
    library: &str,
    text: &str,
    procedures: &[(&str, u32, Standing)],
) -> Result<(), Fail> {
    match load(alloc, library, text) {
        Ok(job) => expect_all(rt, alloc, &job, text, procedures),
        Err(_) => {
            hold(rt, false, text);
            Ok(())
        }
    }
}

const LIBRARY: &str = "q(a). q(b). p(z). p(y).";

const TEXT: &str = "p(1). ?- p(X). p(2) :- q(_), X. ?- q(Y), p(Z), Y = _.";

static PROCEDURES: [(&str, u32, Standing); 4] = [
    ("p", 1, Standing::Static(2)),
    ("q", 1, Standing::Static(2)),
    ("p", 0, Standing::Unknown),
    ("r", 1, Standing::Unknown),
];

/// How many names and variables each query of a job has.
fn sizes(alloc: Global, queries: &[Query]) -> Result<Vec<(usize, u64)>, NoMemory> {
    let mut sizes = Vec::new(alloc);
    for query in queries {
        sizes.push((query.names().len(), query.vars()))?;
    }
    Ok(sizes)
}

#[test]
fn jobs(rt: HostRuntime) -> Result<(), Fail> {
    expect(&rt, rt.alloc(), LIBRARY, TEXT, &PROCEDURES)?;
    Ok(())
}

fn expect_sizes(rt: &impl Abort, alloc: Global, job: &Job) -> Result<(), Fail> {
    let found = sizes(alloc, job.queries())?;
    hold(rt, found.as_slice() == [(1, 1), (2, 3)].as_slice(), TEXT);
    Ok(())
}

#[test]
fn queries(rt: HostRuntime) -> Result<(), Fail> {
    let job = load(rt.alloc(), LIBRARY, TEXT)?;
    expect_sizes(&rt, rt.alloc(), &job)?;
    let parts = job.into_parts();
    same(&rt, parts.queries.len(), 2, TEXT);
    Ok(())
}

/// A library whose procedures a text replaces.
const REPLACED: &str = ":- dynamic(m/1). a(1). a(2). b(1). m(1). m(2). n(1).";

/// A text over that library, and what a procedure is in their job.
static DYNAMIC: [(&str, &str, u32, Standing); 20] = [
    ("", "a", 1, Standing::Static(2)),
    ("", "m", 1, Standing::Dynamic(2)),
    ("m(3).", "m", 1, Standing::Static(1)),
    (":- dynamic(m/1).", "m", 1, Standing::Dynamic(0)),
    (":- dynamic(a/1).", "a", 1, Standing::Dynamic(0)),
    (":- dynamic(a/1). a(3).", "a", 1, Standing::Dynamic(1)),
    (":- dynamic(a/1). a(3).", "b", 1, Standing::Static(1)),
    (":- discontiguous(a/1).", "a", 1, Standing::Static(2)),
    (
        ":- dynamic((p/1, (q/0, r/2), s/1)).",
        "r",
        2,
        Standing::Dynamic(0),
    ),
    (
        ":- dynamic([p/1, q/0]). p(1). p(2).",
        "p",
        1,
        Standing::Dynamic(2),
    ),
    (
        ":- dynamic([p/1, q/0]). p(1). p(2).",
        "q",
        0,
        Standing::Dynamic(0),
    ),
    (":- dynamic([]). p(1).", "p", 1, Standing::Static(1)),
    (
        ":- dynamic(p/1). p(1). :- dynamic(p/1).",
        "p",
        1,
        Standing::Dynamic(1),
    ),
    (":- dynamic(call/9).", "call", 9, Standing::Dynamic(0)),
    (":- dynamic(p/65535).", "p", 65535, Standing::Dynamic(0)),
    (
        ":- op(1150, fx, dynamic). :- dynamic c/1. ?- c(X).",
        "c",
        1,
        Standing::Dynamic(0),
    ),
    (
        ":- op(700, xfx, ===>). p(a ===> b).",
        "p",
        1,
        Standing::Static(1),
    ),
    (":- op(0, fy, -). p(\\ -1).", "p", 1, Standing::Static(1)),
    (
        ":- op(700, xfx, [o, p]). a o b. a p b.",
        "o",
        2,
        Standing::Static(1),
    ),
    (":- op(200, xfy, []). p.", "p", 0, Standing::Static(1)),
];

#[test]
fn dynamic_procedures(rt: HostRuntime) -> Result<(), Fail> {
    for (text, name, arity, wanted) in &DYNAMIC {
        expect(&rt, rt.alloc(), REPLACED, text, &[(*name, *arity, *wanted)])?;
    }
    Ok(())
}

/// A library, a text, and the line, column and kind of its fault.
static REFUSALS: [(&str, &str, u32, u32, FaultKind); 30] = [
    ("", "p. X.", 1, 4, FaultKind::BadClause),
    ("", "p.\n % c\n :- q.", 3, 2, FaultKind::BadDirective),
    ("", "p. ?- p, 1.", 1, 4, FaultKind::BadClause),
    ("", "p. q(", 1, 6, FaultKind::UnexpectedEnd),
    ("p(.", "1.", 1, 3, FaultKind::UnexpectedToken),
    ("", ":- dynamic c/1.", 1, 12, FaultKind::UnexpectedToken),
    ("", "p(1). :- dynamic(p/1).", 1, 7, FaultKind::StaticTwice),
    (
        "",
        "p(1). :- dynamic([q/1, p/1]).",
        1,
        7,
        FaultKind::StaticTwice,
    ),
    (
        "",
        "p(1). :- dynamic((p/1, q)).",
        1,
        7,
        FaultKind::BadDirective,
    ),
    ("", ":- foo.", 1, 1, FaultKind::BadDirective),
    ("", ":- dynamic(p/1, q/1).", 1, 1, FaultKind::BadDirective),
    ("", ":- dynamic(X).", 1, 1, FaultKind::BadDirective),
    ("", ":- dynamic(p/X).", 1, 1, FaultKind::BadDirective),
    ("", ":- dynamic([p/1|q]).", 1, 1, FaultKind::BadDirective),
    ("", ":- dynamic([p/1|X]).", 1, 1, FaultKind::BadDirective),
    (
        "",
        ":- dynamic([(p/1, q/1)]).",
        1,
        1,
        FaultKind::BadDirective,
    ),
    ("", ":- dynamic(p/65536).", 1, 1, FaultKind::BadDirective),
    ("", ":- dynamic(p/ -1).", 1, 1, FaultKind::BadDirective),
    ("", ":- dynamic(f(p)/1).", 1, 1, FaultKind::BadDirective),
    ("", ":- dynamic(call/3).", 1, 1, FaultKind::BadDirective),
    ("", ":- dynamic((',')/2).", 1, 1, FaultKind::BadDirective),
    (
        "",
        ":- discontiguous(write/1).",
        1,
        1,
        FaultKind::BadDirective,
    ),
    ("", ":- op(1201, xfx, a).", 1, 1, FaultKind::BadDirective),
    (
        "",
        ":- op(700, xfx, [a, ',']).",
        1,
        1,
        FaultKind::BadDirective,
    ),
    ("", ":- op(P, xfx, a).", 1, 1, FaultKind::BadDirective),
    (
        "",
        ":- op(700, xfx, o). p(a o b). :- op(0, xfx, o). p(a o b).",
        1,
        53,
        FaultKind::UnexpectedToken,
    ),
    (
        ":- op(700, xfx, o). a o b.",
        "a o b.",
        1,
        3,
        FaultKind::UnexpectedToken,
    ),
    (
        "",
        ":- set_prolog_flag(double_quotes, foo).",
        1,
        1,
        FaultKind::BadDirective,
    ),
    (
        "",
        ":- set_prolog_flag(bounded, true).",
        1,
        1,
        FaultKind::BadDirective,
    ),
    (
        "",
        ":- set_prolog_flag(X, codes).",
        1,
        1,
        FaultKind::BadDirective,
    ),
];

fn expect_refusal(rt: &impl Abort, alloc: Global, library: &str, text: &str, wanted: LoadRefusal) {
    hold(rt, load(alloc, library, text).err() == Some(wanted), text);
}

#[test]
fn refusals(rt: HostRuntime) {
    for (library, text, line, column, kind) in &REFUSALS {
        let wanted = LoadRefusal::Refused {
            line: *line,
            column: *column,
            kind: *kind,
        };
        expect_refusal(&rt, rt.alloc(), library, text, wanted);
    }
}

/// Whether the argument of a clause's head begins with this name.
fn begins_with(clause: &Arc<Clause>, wanted: &str) -> bool {
    match clause.head().cells().get(1) {
        Some(Cell::Atom(name)) => name.text() == wanted,
        Some(Cell::Functor(name, _)) => name.text() == wanted,
        _ => false,
    }
}

const QUOTES: &str = "p(\"ab\"). :- set_prolog_flag(double_quotes, atom). p(\"ab\"). \
    :- set_prolog_flag(double_quotes, chars). p(\"\"). p(\"a\").";

fn expect_beginnings(rt: &impl Abort, clauses: &[Arc<Clause>]) {
    same(rt, clauses.len(), 4, QUOTES);
    for (clause, wanted) in clauses.iter().zip([".", "ab", "[]", "."]) {
        hold(rt, begins_with(clause, wanted), wanted);
    }
}

#[test]
fn double_quotes(rt: HostRuntime) -> Result<(), Fail> {
    let job = load(rt.alloc(), "", QUOTES)?;
    expect_beginnings(&rt, job.clauses());
    Ok(())
}

/// Adds so many pieces to a text, each between two words with its number.
fn push_numbered(
    text: &mut String,
    alloc: Global,
    count: u32,
    words: (&str, &str),
) -> Result<(), Fail> {
    for number in 0..count {
        text.push_str(words.0)?;
        text.push_str(&format!(in alloc; "{number}")?)?;
        text.push_str(words.1)?;
    }
    Ok(())
}

/// Two runs of so many pieces, each between two words.
fn twice(
    alloc: Global,
    count: u32,
    first: (&str, &str),
    second: (&str, &str),
) -> Result<String, Fail> {
    let mut text = String::new(alloc);
    push_numbered(&mut text, alloc, count, first)?;
    push_numbered(&mut text, alloc, count, second)?;
    Ok(text)
}

#[test]
fn long_texts(rt: HostRuntime) -> Result<(), Fail> {
    let alloc = rt.alloc();
    let operators = twice(
        alloc,
        1_000,
        (":- op(700, xfx, o", "). "),
        ("p(1 o", " 2). "),
    )?;
    let wanted = [("p", 1, Standing::Static(1_000))];
    expect(&rt, alloc, "", &operators, &wanted)
}

fn dynamic_facts(alloc: Global, count: u32) -> Result<String, Fail> {
    let mut text = String::from_str(alloc, ":- dynamic(p/1). ")?;
    push_numbered(&mut text, alloc, count, ("p(", "). "))?;
    Ok(text)
}

#[test]
fn many_clauses(rt: HostRuntime) -> Result<(), Fail> {
    let facts = dynamic_facts(rt.alloc(), 2_000)?;
    let wanted = [("p", 1, Standing::Dynamic(2_000))];
    expect(&rt, rt.alloc(), "", &facts, &wanted)
}

#[test]
fn many_procedures(rt: HostRuntime) -> Result<(), Fail> {
    let alloc = rt.alloc();
    let procedures = twice(alloc, 2_000, (":- dynamic(p", "/1). "), ("p", "(a). "))?;
    let wanted = [
        ("p0", 1, Standing::Dynamic(1)),
        ("p1999", 1, Standing::Dynamic(1)),
    ];
    expect(&rt, alloc, "", &procedures, &wanted)
}
