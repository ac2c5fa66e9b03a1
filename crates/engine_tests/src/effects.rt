//! What no clause says: that effects are applied where memory is there, and what they come to, as text.
use crate::effect_rows::{
    ABOLISHED, ADDED, HALTS, Kind, LOOKED_AT, LOOKED_UP, OPERATORS, OUTPUT, Part, Row, WRITTEN,
};
use Part::{A, F, I, V};
use au_model::{Fault, Style, VarName};
use au_term::{Atom, Cell, FlatTerm, NoMemory, TermBuilder};
use clause_compile::{Clause, ClauseId, Effect};
use dyn_clauses::{Database, Indicator};
use effect_gate::{Applied, World, ball};
use op_table::Ops;
use std::alloc::Global;
use std::process::Abort;
use std::sync::Arc;
use std::test::Fail;
use term_writer::write_into;

fn cell(alloc: Global, part: Part) -> Result<Cell, NoMemory> {
    Ok(match part {
        V(number) => Cell::Var(u64::from(number)),
        I(value) => Cell::Int(value),
        A(name) => Cell::Atom(Atom::new(alloc, name)?),
        F(name, arity) => Cell::Functor(Atom::new(alloc, name)?, u32::from(arity)),
    })
}

/// The term of these cells.
fn term(alloc: Global, parts: &[Part]) -> Result<FlatTerm, NoMemory> {
    let mut builder = TermBuilder::new(alloc);
    for part in parts {
        let cell = cell(alloc, *part)?;
        let is_sound = match &cell {
            Cell::Var(number) => *number < u64::MAX,
            Cell::Functor(_, arity) => 0 < *arity && *arity < 65536,
            _ => true,
        };
        if builder.missing() == 0 || !is_sound {
            return Err(NoMemory);
        }
        builder.push(cell)?;
    }
    if builder.missing() > 0 {
        return Err(NoMemory);
    }
    Ok(builder.finish())
}

/// An argument of a row, if it has one.
fn argument(alloc: Global, arguments: &[&[Part]], i: usize) -> Result<FlatTerm, NoMemory> {
    match arguments.get(i) {
        Some(parts) => term(alloc, parts),
        None => term(alloc, &[A("none")]),
    }
}

fn number(term: &FlatTerm) -> u64 {
    match term.top() {
        Cell::Int(value) if *value >= 0 => *value as u64,
        _ => u64::MAX,
    }
}

fn answer(alloc: Global, value: FlatTerm) -> Result<Effect, NoMemory> {
    let mut names = Vec::new(alloc);
    names.push(VarName {
        text: String::from_str(alloc, "X")?,
        number: 0,
    })?;
    let mut values = Vec::new(alloc);
    values.push(value)?;
    Ok(Effect::Answer { names, values })
}

/// The effect of a row.
fn effect(alloc: Global, kind: Kind, arguments: &[&[Part]]) -> Result<Effect, NoMemory> {
    let first = argument(alloc, arguments, 0)?;
    let second = argument(alloc, arguments, 1)?;
    let third = argument(alloc, arguments, 2)?;
    Ok(match kind {
        Kind::Write => Effect::Write(first),
        Kind::Writeq => Effect::Writeq(first),
        Kind::WriteCanonical => Effect::WriteCanonical(first),
        Kind::Nl => Effect::Nl,
        Kind::PutChar => Effect::PutChar(first),
        Kind::Asserta => Effect::Asserta(first),
        Kind::Assertz => Effect::Assertz(first),
        Kind::Retract => Effect::Retract(first),
        Kind::Abolish => Effect::Abolish(first),
        Kind::Clause => Effect::Clause(first, second),
        Kind::Op => Effect::Op(first, second, third),
        Kind::CurrentOp => Effect::CurrentOp(first, second, third),
        Kind::Halt => Effect::Halt,
        Kind::HaltWith => Effect::HaltWith(first),
        Kind::Call => Effect::Call(first),
        Kind::Remove => Effect::Remove(ClauseId(number(&first))),
        Kind::Answer => return answer(alloc, first),
        Kind::No => Effect::End(None),
        Kind::Uncaught => Effect::End(Some(first)),
    })
}

/// Puts a word and a number behind a text.
fn put(alloc: Global, text: &mut Vec<u8>, word: &str, number: u64) -> Result<(), NoMemory> {
    text.extend_from_slice(format!(in alloc; "{word} {number}")?.as_bytes())?;
    Ok(())
}

fn put_clauses(
    alloc: Global,
    text: &mut Vec<u8>,
    clauses: &[(ClauseId, Arc<Clause>)],
) -> Result<(), NoMemory> {
    text.extend_from_slice(b"clauses")?;
    for clause in clauses {
        put(alloc, text, "", clause.0.0)?;
    }
    Ok(())
}

fn put_ball(
    alloc: Global,
    text: &mut Vec<u8>,
    effect: &Effect,
    fault: &Fault,
) -> Result<(), NoMemory> {
    let ball = ball(alloc, effect, fault)?;
    let ops = Ops::initial(alloc)?;
    write_into(alloc, text, &ball, &ops, Style::Quoted)
}

/// Puts what an effect came to behind a text: the clauses by their numbers, the number of operators, or the ball.
fn put_shown(
    alloc: Global,
    text: &mut Vec<u8>,
    effect: &Effect,
    applied: &Applied,
) -> Result<(), NoMemory> {
    match applied {
        Applied::Went => Ok(text.extend_from_slice(b"true")?),
        Applied::Fails => Ok(text.extend_from_slice(b"false")?),
        Applied::Halt(status) => put(alloc, text, "halt", u64::from(*status)),
        Applied::Rows(rows) => put(alloc, text, "rows", rows.len() as u64),
        Applied::Clauses(clauses) => put_clauses(alloc, text, clauses),
        Applied::Raise(fault) => put_ball(alloc, text, effect, fault),
    }
}

fn statics(alloc: Global) -> Result<Vec<Indicator>, Fail> {
    let name = Atom::new(alloc, "p")?;
    let mut statics = Vec::new(alloc);
    statics.push(Indicator { name, arity: 1 })?;
    Ok(statics)
}

/// A world where `p/1` is static.
fn world(alloc: Global) -> Result<World, Fail> {
    Ok(World {
        out: Vec::new(alloc),
        database: Database::new(alloc, statics(alloc)?)?,
        ops: Ops::initial(alloc)?,
    })
}

/// What an effect comes to.
fn applied(alloc: Global, world: &mut World, effect: &Effect) -> Result<Applied, NoMemory> {
    world.apply(alloc, effect)
}

/// The same as text.
fn put_applied(
    alloc: Global,
    world: &mut World,
    effect: &Effect,
    text: &mut Vec<u8>,
) -> Result<(), NoMemory> {
    let applied = applied(alloc, world, effect)?;
    put_shown(alloc, text, effect, &applied)
}

/// Applies the effect of a row, and compares what it comes to.
fn expect_row(rt: &impl Abort, alloc: Global, world: &mut World, row: &Row) -> Result<(), Fail> {
    let (kind, arguments, expected) = row;
    let effect = effect(alloc, *kind, arguments)?;
    let mut text = Vec::new(alloc);
    put_applied(alloc, world, &effect, &mut text)?;
    assert!(rt; text.as_slice() == expected.as_bytes(), "{expected}");
    Ok(())
}

/// Applies effects in turn, and compares what they come to and what is written then.
fn expect_rows(
    rt: &impl Abort,
    alloc: Global,
    world: &mut World,
    rows: &[Row],
    written: &str,
) -> Result<(), Fail> {
    for row in rows {
        expect_row(rt, alloc, world, row)?;
    }
    assert!(rt; world.out.as_slice() == written.as_bytes(), "{written}");
    Ok(())
}

/// The same in a world of its own.
fn expect(rt: &impl Abort, alloc: Global, rows: &[Row], written: &str) -> Result<(), Fail> {
    let mut world = world(alloc)?;
    expect_rows(rt, alloc, &mut world, rows, written)
}

#[test]
fn clauses_added(rt: HostRuntime) -> Result<(), Fail> {
    expect(&rt, rt.alloc(), &ADDED, "")
}

#[test]
fn clauses_looked_up(rt: HostRuntime) -> Result<(), Fail> {
    expect(&rt, rt.alloc(), &LOOKED_UP, "")?;
    expect(&rt, rt.alloc(), &LOOKED_AT, "")
}

#[test]
fn procedures_and_operators(rt: HostRuntime) -> Result<(), Fail> {
    expect(&rt, rt.alloc(), &ABOLISHED, "")?;
    expect(&rt, rt.alloc(), &OPERATORS, "")
}

#[test]
fn output_and_ends(rt: HostRuntime) -> Result<(), Fail> {
    expect(&rt, rt.alloc(), &OUTPUT, WRITTEN)?;
    expect(&rt, rt.alloc(), &HALTS, "")
}
