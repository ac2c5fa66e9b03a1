//! The standard's operators (ISO/IEC 13211-1, 6.3.4.4).

use crate::common::{expect, hold};
use au_model::build::{binary, list_of, single};
use au_model::{DomainName, Fault, PermissionName, TypeName};
use au_term::{Atom, Cell, FlatTerm, NoMemory};
use op_table::{OpKind, OpRefusal, OpRow, Operator, Ops};
use std::alloc::Global;
use std::process::Abort;
use std::test::Fail;

type Group = (u16, OpKind, &'static [&'static str]);

/// Priorities, kinds and names.
static GROUPS: [Group; 12] = [
    (1200, OpKind::Xfx, &[":-", "-->"]),
    (1200, OpKind::Fx, &[":-", "?-"]),
    (1100, OpKind::Xfy, &[";"]),
    (1050, OpKind::Xfy, &["->"]),
    (1000, OpKind::Xfy, &[","]),
    (900, OpKind::Fy, &["\\+"]),
    (
        700,
        OpKind::Xfx,
        &[
            "=", "\\=", "==", "\\==", "@<", "@=<", "@>", "@>=", "=..", "is", "=:=", "=\\=", "<",
            "=<", ">", ">=",
        ],
    ),
    (500, OpKind::Yfx, &["+", "-", "/\\", "\\/"]),
    (
        400,
        OpKind::Yfx,
        &["*", "/", "//", "rem", "mod", "<<", ">>"],
    ),
    (200, OpKind::Xfx, &["**"]),
    (200, OpKind::Xfy, &["^"]),
    (200, OpKind::Fy, &["-", "\\"]),
];

type Classes = (&'static str, Option<u16>, Option<u16>, Option<u16>);

/// Names, and the priorities of their prefix, infix and postfix operators.
static NAMES: [Classes; 8] = [
    ("-", Some(200), Some(500), None),
    (":-", Some(1200), Some(1200), None),
    ("\\", Some(200), None, None),
    ("is", None, Some(700), None),
    ("", None, None, None),
    ("i", None, None, None),
    ("dynamic", None, None, None),
    ("~", None, None, None),
];

fn priority(operator: Option<Operator>) -> Option<u16> {
    match operator {
        Some(operator) => Some(operator.priority),
        None => None,
    }
}

/// The prefix or the infix operator of a name.
fn operator_of(ops: &Ops, kind: OpKind, name: &str) -> Option<Operator> {
    match kind {
        OpKind::Fy | OpKind::Fx => ops.prefix(name),
        _ => ops.infix(name),
    }
}

/// The priorities of the prefix, infix and postfix operator of a name.
fn priorities(ops: &Ops, name: &str) -> (Option<u16>, Option<u16>, Option<u16>) {
    let prefix = priority(ops.prefix(name));
    let infix = priority(ops.infix(name));
    let postfix = priority(ops.postfix(name));
    (prefix, infix, postfix)
}

fn check_groups(rt: &impl Abort, ops: &Ops, groups: &[Group]) {
    for (priority, kind, names) in groups {
        let want = Operator {
            priority: *priority,
            kind: *kind,
        };
        for name in *names {
            expect(rt, operator_of(ops, *kind, name), Some(want), name);
        }
    }
}

fn check_names(rt: &impl Abort, ops: &Ops, names: &[Classes]) {
    for (name, prefix, infix, postfix) in names {
        expect(rt, priorities(ops, name), (*prefix, *infix, *postfix), name);
    }
}

#[test]
fn initial_table(rt: HostRuntime) -> Result<(), Fail> {
    let ops = Ops::initial(rt.alloc())?.copy()?;
    check_groups(&rt, &ops, &GROUPS);
    check_names(&rt, &ops, &NAMES);
    Ok(())
}

fn row_count(ops: &Ops) -> Result<usize, NoMemory> {
    Ok(ops.rows()?.len())
}

/// Whether names go up, and one name twice is a prefix operator first.
fn are_in_order(rows: &[OpRow]) -> bool {
    let mut before = "";
    let mut is_prefix = false;
    let mut in_order = true;
    for row in rows {
        let name = row.name.text();
        in_order = in_order && (before < name || before == name && is_prefix);
        before = name;
        is_prefix = is_prefix_kind(row.operator.kind);
    }
    in_order
}

fn is_prefix_kind(kind: OpKind) -> bool {
    match kind {
        OpKind::Fy | OpKind::Fx => true,
        _ => false,
    }
}

#[test]
fn rows_in_order(rt: HostRuntime) -> Result<(), Fail> {
    let rows = Ops::initial(rt.alloc())?.rows()?;
    expect(&rt, rows.len(), 39, "rows");
    hold(&rt, are_in_order(&rows), "order");
    Ok(())
}

/// Operators of which each may be put into the table that those before it leave: of new names between the others, in
/// front of them and after them, of a name that has an operator of another class, and in place of another.
static PUT: [(&str, u16, OpKind); 6] = [
    ("===>", 700, OpKind::Xfx),
    ("~", 200, OpKind::Fy),
    ("!", 100, OpKind::Yf),
    ("is", 300, OpKind::Fx),
    ("is", 699, OpKind::Xfy),
    ("~", 1, OpKind::Fx),
];

/// The priorities of names after these.
static PUT_NAMES: [Classes; 5] = [
    ("is", Some(300), Some(699), None),
    ("~", Some(1), None, None),
    ("!", None, None, Some(100)),
    ("===>", None, Some(700), None),
    ("=", None, Some(700), None),
];

fn put(
    rt: &impl Abort,
    alloc: Global,
    ops: &mut Ops,
    name: &str,
    operator: Operator,
) -> Result<(), NoMemory> {
    let name = Atom::new(alloc, name)?;
    let row = OpRow { name, operator };
    assert!(rt; ops.may_put(&row));
    ops.put(row)
}

fn put_all(rt: &impl Abort, alloc: Global, ops: &mut Ops) -> Result<(), Fail> {
    for (name, priority, kind) in &PUT {
        let operator = Operator {
            priority: *priority,
            kind: *kind,
        };
        put(rt, alloc, ops, name, operator)?;
    }
    check_names(rt, ops, &PUT_NAMES);
    expect(rt, row_count(ops)?, 43, "rows");
    Ok(())
}

#[test]
fn operators_put(rt: HostRuntime) -> Result<(), Fail> {
    let mut ops = Ops::initial(rt.alloc())?;
    put_all(&rt, rt.alloc(), &mut ops)
}

/// An argument of op/3.
enum Arg {
    Var,
    Int(i64),
    Name(&'static str),
    List(&'static [Arg]),
    /// A list with one item and a variable behind it.
    Open(&'static str),
}

/// What op/3 is asked for, and its error.
struct Case {
    priority: Arg,
    specifier: Arg,
    names: Arg,
    error: Want,
}

enum Want {
    Instantiation,
    Type(TypeName, Arg),
    Domain(DomainName, Arg),
    Permission(PermissionName, &'static str),
}

static CASES: [Case; 14] = [
    Case {
        priority: Arg::Name("p"),
        specifier: Arg::Int(1),
        names: Arg::List(&[Arg::Int(2), Arg::Var]),
        error: Want::Instantiation,
    },
    Case {
        priority: Arg::Int(1),
        specifier: Arg::Name("xfx"),
        names: Arg::Open("a"),
        error: Want::Instantiation,
    },
    Case {
        priority: Arg::Var,
        specifier: Arg::Int(1),
        names: Arg::Int(2),
        error: Want::Instantiation,
    },
    Case {
        priority: Arg::Name("p"),
        specifier: Arg::Int(1),
        names: Arg::Int(2),
        error: Want::Type(TypeName::Integer, Arg::Name("p")),
    },
    Case {
        priority: Arg::Int(1201),
        specifier: Arg::Int(1),
        names: Arg::Int(2),
        error: Want::Type(TypeName::Atom, Arg::Int(1)),
    },
    Case {
        priority: Arg::Int(1201),
        specifier: Arg::Name("a"),
        names: Arg::Int(2),
        error: Want::Type(TypeName::ProperList, Arg::Int(2)),
    },
    Case {
        priority: Arg::Int(1201),
        specifier: Arg::Name("a"),
        names: Arg::List(&[Arg::Name(","), Arg::Int(2)]),
        error: Want::Type(TypeName::Atom, Arg::Int(2)),
    },
    Case {
        priority: Arg::Int(1201),
        specifier: Arg::Name("a"),
        names: Arg::Name(","),
        error: Want::Domain(DomainName::OperatorPriority, Arg::Int(1201)),
    },
    Case {
        priority: Arg::Int(-1),
        specifier: Arg::Name("a"),
        names: Arg::Name(","),
        error: Want::Domain(DomainName::OperatorPriority, Arg::Int(-1)),
    },
    Case {
        priority: Arg::Int(1200),
        specifier: Arg::Name("a"),
        names: Arg::Name(","),
        error: Want::Domain(DomainName::OperatorSpecifier, Arg::Name("a")),
    },
    Case {
        priority: Arg::Int(700),
        specifier: Arg::Name("xfx"),
        names: Arg::List(&[Arg::Name("[]"), Arg::Name(",")]),
        error: Want::Permission(PermissionName::ModifyOperator, ","),
    },
    Case {
        priority: Arg::Int(700),
        specifier: Arg::Name("xfx"),
        names: Arg::List(&[Arg::Name("=="), Arg::Name("|")]),
        error: Want::Permission(PermissionName::CreateOperator, "|"),
    },
    Case {
        priority: Arg::Int(200),
        specifier: Arg::Name("fy"),
        names: Arg::Name("{}"),
        error: Want::Permission(PermissionName::CreateOperator, "{}"),
    },
    Case {
        priority: Arg::Int(0),
        specifier: Arg::Name("xf"),
        names: Arg::List(&[Arg::Name("~"), Arg::Name("is")]),
        error: Want::Permission(PermissionName::CreateOperator, "is"),
    },
];

fn name(alloc: Global, text: &str) -> Result<FlatTerm, NoMemory> {
    single(alloc, Cell::Atom(Atom::new(alloc, text)?))
}

/// An argument that is no list.
fn item(alloc: Global, arg: &Arg) -> Result<FlatTerm, NoMemory> {
    match arg {
        Arg::Int(value) => single(alloc, Cell::Int(*value)),
        Arg::Name(text) => name(alloc, text),
        _ => single(alloc, Cell::Var(0)),
    }
}

fn term(alloc: Global, arg: &Arg) -> Result<FlatTerm, NoMemory> {
    match arg {
        Arg::List(args) => {
            let mut items = Vec::new(alloc);
            for arg in *args {
                items.push(item(alloc, arg)?)?;
            }
            list_of(alloc, &items)
        }
        Arg::Open(first) => binary(
            alloc,
            ".",
            &name(alloc, first)?,
            &single(alloc, Cell::Var(0))?,
        ),
        _ => item(alloc, arg),
    }
}

fn fault(alloc: Global, want: &Want) -> Result<Fault, NoMemory> {
    Ok(match want {
        Want::Instantiation => Fault::Instantiation,
        Want::Type(name, culprit) => Fault::WrongType(*name, item(alloc, culprit)?),
        Want::Domain(name, culprit) => Fault::Domain(*name, item(alloc, culprit)?),
        Want::Permission(permission, culprit) => Fault::Permission(
            *permission,
            name(alloc, culprit)?,
        ),
    })
}

/// Adds what op/3 is asked for.
fn add(
    alloc: Global,
    ops: &mut Ops,
    priority: &Arg,
    specifier: &Arg,
    names: &Arg,
) -> Result<(), OpRefusal> {
    let (priority, specifier) = (term(alloc, priority)?, term(alloc, specifier)?);
    ops.add(&priority, &specifier, &term(alloc, names)?)
}

/// Whether a refusal is this error.
fn is_error(alloc: Global, refusal: &OpRefusal, want: &Want) -> Result<bool, NoMemory> {
    let OpRefusal::Fault(found) = refusal else {
        return Ok(false);
    };
    let op = Atom::new(alloc, "op")?;
    let want = fault(alloc, want)?.term(alloc, &op, 3)?;
    Ok(found.term(alloc, &op, 3)?.cells() == want.cells())
}

fn is_refused(alloc: Global, ops: &mut Ops, case: &Case) -> Result<bool, NoMemory> {
    match add(alloc, ops, &case.priority, &case.specifier, &case.names) {
        Ok(()) => Ok(false),
        Err(refusal) => is_error(alloc, &refusal, &case.error),
    }
}

fn refuse_all(rt: &impl Abort, alloc: Global, ops: &mut Ops) -> Result<(), Fail> {
    for case in &CASES {
        hold(rt, is_refused(alloc, ops, case)?, "refused");
    }
    check_groups(rt, ops, &GROUPS);
    expect(rt, row_count(ops)?, 39, "rows");
    Ok(())
}

#[test]
fn operators_refused(rt: HostRuntime) -> Result<(), Fail> {
    let mut ops = Ops::initial(rt.alloc())?;
    refuse_all(&rt, rt.alloc(), &mut ops)
}

/// Operators added one after another, and how many rows the table then has.
static ADDED: [(Arg, Arg, Arg, usize); 6] = [
    (Arg::Int(0), Arg::Name("xfx"), Arg::Name("="), 38),
    (Arg::Int(0), Arg::Name("fy"), Arg::Name("="), 38),
    (Arg::Int(700), Arg::Name("xfx"), Arg::Name("[]"), 38),
    (
        Arg::Int(200),
        Arg::Name("xf"),
        Arg::List(&[Arg::Name("="), Arg::Name("~"), Arg::Name("=")]),
        40,
    ),
    (
        Arg::Int(100),
        Arg::Name("yf"),
        Arg::List(&[Arg::Name("é"), Arg::Name("~"), Arg::Name("z")]),
        42,
    ),
    (
        Arg::Int(0),
        Arg::Name("xf"),
        Arg::List(&[Arg::Name("="), Arg::Name("é")]),
        40,
    ),
];

/// The priorities of names after these.
static ADDED_NAMES: [Classes; 2] = [("~", None, None, Some(100)), ("=", None, None, None)];

fn add_all(rt: &impl Abort, alloc: Global, ops: &mut Ops) -> Result<(), Fail> {
    for (priority, specifier, names, count) in &ADDED {
        let added = add(alloc, ops, priority, specifier, names);
        hold(rt, added.is_ok(), "added");
        expect(rt, row_count(ops)?, *count, "rows");
    }
    check_names(rt, ops, &ADDED_NAMES);
    Ok(())
}

#[test]
fn operators_added(rt: HostRuntime) -> Result<(), Fail> {
    let first = Ops::initial(rt.alloc())?;
    let mut ops = first.copy()?;
    add_all(&rt, rt.alloc(), &mut ops)?;
    check_groups(&rt, &first, &GROUPS);
    Ok(())
}
