//! The balls of errors.
ghost use Rattle.std.specs.Prelude.{◌≡◌, IfOk};
ghost use Rattle.au_model.specs.Terms.ErrorTerms.{error_term};
ghost use Rattle.au_model.specs.Terms.Faults.{error_term_of};
ghost use Rattle.effect_gate.specs.Effects.{effect_arity, effect_name};

use crate::statics::procedure_of;
use au_model::Fault;
use au_term::{Atom, FlatTerm, NoMemory};
use clause_compile::Effect;
use dyn_clauses::Indicator;
use std::alloc::Global;

/// The ball of an error that the goal of an effect raises (ISO/IEC 13211-1, 7.12.2).
pub fn ball(alloc: Global, effect: &Effect, fault: &Fault) -> Result<FlatTerm, NoMemory>
    ensures { IfOk result (λ ball. ball ≡ error_term (error_term_of fault.now) (effect_name effect.now) (effect_arity effect.now)) }
{
    let goal = goal_of(alloc, effect)?;
    fault.term(alloc, &goal.name, goal.arity)
}

/// The name of an effect's goal and how many arguments it has.
fn goal_of(alloc: Global, effect: &Effect) -> Result<Indicator, NoMemory>
    ensures name { IfOk result (λ goal. goal.name ≡ effect_name effect.now) }
    ensures arity { IfOk result (λ goal. goal.arity ≡ effect_arity effect.now) }
{
    let (name, arity) = match effect {
        Effect::Write(_) => ("write", 1),
        Effect::Writeq(_) => ("writeq", 1),
        Effect::WriteCanonical(_) => ("write_canonical", 1),
        Effect::Nl => ("nl", 0),
        Effect::PutChar(_) => ("put_char", 1),
        Effect::Asserta(_) => ("asserta", 1),
        Effect::Assertz(_) => ("assertz", 1),
        Effect::Retract(_) => ("retract", 1),
        Effect::Abolish(_) => ("abolish", 1),
        Effect::Clause(_, _) => ("clause", 2),
        Effect::Op(_, _, _) => ("op", 3),
        Effect::CurrentOp(_, _, _) => ("current_op", 3),
        Effect::Halt => ("halt", 0),
        Effect::HaltWith(_) => ("halt", 1),
        Effect::Call(goal) => return procedure_of(alloc, goal),
        Effect::Remove(_) | Effect::Answer { .. } | Effect::End(_) => ("", 0),
    };
    Ok(Indicator {
        name: Atom::ascii(alloc, name)?,
        arity,
    })
}
