//! Answers, and ends of queries.
ghost use Rattle.std.specs.Prelude.{◌≡◌, ◌<◌, ◌^◌, ◌-◌, ◌++◌, IfOk, OnOk, map};
ghost use Rattle.std.specs.Arc.{arc_value};
ghost use Rattle.au_model.specs.Terms.Named.{variable_meant};
ghost use Rattle.au_model.specs.Writing.Lines.{end_line};
ghost use Rattle.au_term.specs.Term.{VarTerm};
ghost use Rattle.au_model.specs.Terms.Substitutions.{resolve};
ghost use Rattle.cell_store.specs.StoreView.{substitution};
ghost use Rattle.region_control.specs.Ahead.{IsNothingLeft};
ghost use Rattle.region_run.specs.declared.running.Stop.{Stop as StopTerms};
ghost use Rattle.stack_run.specs.MachineView.{names_asked, value_in, IsNextHeld, IsOneStep};

use crate::machine::{Machine, Next, Program};
use crate::query::ask_next;
use au_model::VarName;
use au_term::{Cell, FlatTerm, NoMemory, TermBuilder, VarNo};
use binding_array::BindingCell;
use cell_store::Store;
use op_table::Ops;
use region_split::Position;
use std::alloc::Global;
use term_writer::{answer_line, ball_line};

/// Writes the line of an answer: nothing is left to do at a position.
pub(crate) fn answer(
    alloc: Global,
    program: &Program,
    machine: &mut Machine,
    position: Position,
) -> Result<Next, NoMemory>
    requires left { IsNothingLeft machine.old.region position }
    requires few { machine.old.answers < 2 ^ 64 - 1 }
    ensures steps { IfOk result (IsOneStep program.now machine.old (StopTerms.Answer position) machine.new) }
    ensures there { IfOk result (IsNextHeld machine.new.region) }
    ensures statics { machine.new.world.database.statics ≡ machine.old.world.database.statics }
    ensures region { machine.new.region ≡ machine.old.region }
{
    let _here = position;
    let names = asked_names(program, machine.asked);
    let values = values_of(alloc, names, machine.region.store())?;
    answer_line(
        alloc,
        &mut machine.world.out,
        names,
        &values,
        &machine.world.ops,
    )?;
    machine.answers += 1;
    Ok(Next::Runs(None))
}

/// The names of the query that was asked last.
fn asked_names(program: &Program, asked: usize) -> &[VarName]
    ensures { map variable_meant result.now ≡ names_asked asked program.entry.now.queries.items }
{
    if asked == 0 || asked > program.queries.len() {
        return &[];
    }
    program.queries[asked - 1].names()
}

/// What variables stand for.
fn values_of(alloc: Global, names: &[VarName], store: &Store) -> Result<Vec<FlatTerm>, NoMemory>
    ensures { IfOk result (λ values. values.items ≡ map (value_in store.now) names.now) }
{
    let mut values = Vec::new(alloc);
    for name in names {
        values.push(value_of(alloc, name.number, store)?)?;
    }
    Ok(values)
}

/// What a variable stands for; itself where the store has no such number.
fn value_of(alloc: Global, number: VarNo, store: &Store) -> Result<FlatTerm, NoMemory>
    ensures { IfOk result (λ t. t ≡ resolve (substitution store.now) (VarTerm number)) }
{
    if number < VarNo::from(store.next()) {
        return store.resolve(BindingCell::Var(number as u32));
    }
    if number == VarNo::MAX {
        return Err(NoMemory);
    }
    let mut builder = TermBuilder::new(alloc);
    builder.push(Cell::Var(number))?;
    Ok(builder.finish())
}

/// Writes the line that ends a query, and lets the next one begin.
pub(crate) fn end_query(
    alloc: Global,
    program: &Program,
    machine: &mut Machine,
    ball: Option<FlatTerm>,
) -> Result<Next, NoMemory>
    requires text { machine.old.region.text ≡ arc_value program.now.text }
    ensures steps { IfOk result (IsOneStep program.now machine.old (StopTerms.QueryDone ball) machine.new) }
    ensures there { IfOk result (IsNextHeld machine.new.region) }
    ensures statics { machine.new.world.database.statics ≡ machine.old.world.database.statics }
    ensures text { machine.new.region.text ≡ arc_value program.now.text }
{
    push_end(alloc, &ball, &machine.world.ops, &mut machine.world.out)?;
    ask_next(alloc, program, machine)
}

/// Puts the line that ends a query after the bytes of `line`.
fn push_end(
    alloc: Global,
    ball: &Option<FlatTerm>,
    ops: &Ops,
    line: &mut Vec<u8>,
) -> Result<(), NoMemory>
    ensures { OnOk result (line.new.items ≡ line.old.items ++ end_line ops.now ball.now) }
{
    match ball {
        Some(ball) => ball_line(alloc, line, ball, ops),
        None => {
            line.extend_from_slice(b"no\n")?;
            Ok(())
        }
    }
}
