//! The world, and what each effect does to it.
ghost use Rattle.std.specs.Prelude.{◌≡◌, IfOk};
ghost use Rattle.effect_gate.specs.Effects.{IsEffectApplied};
ghost use Rattle.effect_gate.specs.Refusals.{IsEffectDone};

use crate::assertion::End;
use crate::refusal::Refusal;
use crate::status::halt_with;
use au_model::{Fault, Style};
use au_term::NoMemory;
use clause_compile::{Clause, ClauseId, Effect};
use dyn_clauses::Database;
use op_table::{OpRow, Ops};
use std::alloc::Global;
use std::sync::Arc;

/// What goals share: the bytes written, the dynamic procedures, and the operators.
#[derive(Drop)]
pub struct World {
    pub out: Vec<u8>,
    pub database: Database,
    pub ops: Ops,
}

/// What an effect comes to.
#[derive(Drop)]
pub enum Applied {
    /// It holds, once.
    Went,
    /// Its goal raises an error.
    Raise(Fault),
    /// These clauses are tried, in their order.
    Clauses(Vec<(ClauseId, Arc<Clause>)>),
    /// It has no solution.
    Fails,
    /// These operators are tried, in their order.
    Rows(Vec<OpRow>),
    /// The run ends with a status.
    Halt(u8),
}

impl World {
    /// Applies an effect, and tells what it comes to. An error of its goal leaves the world as it was.
    pub fn apply(&mut self, alloc: Global, effect: &Effect) -> Result<Applied, NoMemory>
        ensures applied { IfOk result (IsEffectApplied effect.now self.old self.new) }
        ensures statics { self.new.database.statics ≡ self.old.database.statics }
    {
        match self.apply_or_refuse(alloc, effect) {
            Ok(applied) => Ok(applied),
            Err(Refusal::Fault(fault)) => Ok(Applied::Raise(fault)),
            Err(Refusal::NoMemory) => Err(NoMemory),
        }
    }

    fn apply_or_refuse(&mut self, alloc: Global, effect: &Effect) -> Result<Applied, Refusal>
        ensures applied { IsEffectDone effect.now self.old self.new result }
        ensures statics { self.new.database.statics ≡ self.old.database.statics }
    {
        match effect {
            Effect::Write(term) => self.write(alloc, term, Style::Plain),
            Effect::Writeq(term) => self.write(alloc, term, Style::Quoted),
            Effect::WriteCanonical(term) => self.write(alloc, term, Style::Canonical),
            Effect::Nl => self.end_line(),
            Effect::PutChar(term) => self.put_character(alloc, term),
            Effect::Asserta(clause) => self.assert(alloc, clause, End::First),
            Effect::Assertz(clause) => self.assert(alloc, clause, End::Last),
            Effect::Retract(clause) => self.retract(alloc, clause),
            Effect::Abolish(procedure) => self.abolish(alloc, procedure),
            Effect::Clause(head, body) => self.clauses(alloc, head, body),
            Effect::Op(priority, specifier, names) => {
                self.change_operators(priority, specifier, names)
            }
            Effect::CurrentOp(priority, specifier, name) => {
                self.operators(priority, specifier, name)
            }
            Effect::Halt => Ok(Applied::Halt(0)),
            Effect::HaltWith(status) => halt_with(status),
            Effect::Call(goal) => self.call(alloc, goal),
            Effect::Remove(id) => self.remove(*id),
            Effect::Answer { names, values } => self.answer(alloc, names, values),
            Effect::End(ball) => self.end_query(alloc, ball),
        }
    }
}
