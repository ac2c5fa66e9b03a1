//! What is written (ISO/IEC 13211-1, 8.12.3 and 8.14.2), and the lines of queries.
ghost use Rattle.std.specs.Prelude.{◌≡◌, ◌∷◌, ◌++◌, [], IfOk, OnOk};
ghost use Rattle.std.specs.Str.{encode_utf8_all};
ghost use Rattle.au_model.specs.Terms.ErrorTerms.{error_term};
ghost use Rattle.au_model.specs.Terms.Faults.{error_term_of};
ghost use Rattle.au_model.specs.Writing.Lines.{end_line};
ghost use Rattle.run_model.specs.Goals.OutputGoals.{no_character_ball};
ghost use Rattle.clause_compile.specs.declared.event.Effect.TheVariants.{Nl as NlEffect, PutChar as PutCharEffect, Answer as AnswerEffect, End as EndEffect};
ghost use Rattle.effect_gate.specs.Refusals.{IsEffectDone, writing};
ghost use Rattle.std.specs.Prelude.{codes};

use crate::refusal::Refusal;
use crate::world::{Applied, World};
use au_model::{Fault, Style, TypeName, VarName};
use au_term::{Cell, FlatTerm, NoMemory};
use op_table::Ops;
use std::alloc::Global;
use std_builtins::character;
use term_writer::{answer_line, ball_line, write_into};

impl World {
    /// Writes a term in a style.
    pub(crate) fn write(
        &mut self,
        alloc: Global,
        term: &FlatTerm,
        style: Style,
    ) -> Result<Applied, Refusal>
        ensures done { IsEffectDone (writing style term.now) self.old self.new result }
        ensures database { self.new.database ≡ self.old.database }
    {
        write_into(alloc, &mut self.out, term, &self.ops, style)?;
        Ok(Applied::Went)
    }

    /// Ends a line.
    pub(crate) fn end_line(&mut self) -> Result<Applied, Refusal>
        ensures done { IsEffectDone NlEffect self.old self.new result }
        ensures database { self.new.database ≡ self.old.database }
    {
        self.out.push(b'\n')?;
        Ok(Applied::Went)
    }

    /// Writes a character.
    pub(crate) fn put_character(
        &mut self,
        alloc: Global,
        term: &FlatTerm,
    ) -> Result<Applied, Refusal>
        ensures done { IsEffectDone (PutCharEffect term.now) self.old self.new result }
        ensures database { self.new.database ≡ self.old.database }
    {
        let Some(c) = character(term) else {
            return Err(Refusal::Fault(no_character(term)?));
        };
        push_character(alloc, c, &mut self.out)?;
        Ok(Applied::Went)
    }

    /// Writes the line of an answer.
    pub(crate) fn answer(
        &mut self,
        alloc: Global,
        names: &Vec<VarName>,
        values: &Vec<FlatTerm>,
    ) -> Result<Applied, Refusal>
        ensures done { IsEffectDone (AnswerEffect names.now values.now) self.old self.new result }
        ensures database { self.new.database ≡ self.old.database }
    {
        answer_line(alloc, &mut self.out, names, values, &self.ops)?;
        Ok(Applied::Went)
    }

    /// Writes the line that ends a query.
    pub(crate) fn end_query(
        &mut self,
        alloc: Global,
        ball: &Option<FlatTerm>,
    ) -> Result<Applied, Refusal>
        ensures done { IsEffectDone (EndEffect ball.now) self.old self.new result }
        ensures database { self.new.database ≡ self.old.database }
    {
        push_end_line(alloc, ball, &self.ops, &mut self.out)?;
        Ok(Applied::Went)
    }
}

/// Puts the bytes of a character after others.
fn push_character(alloc: Global, c: char, out: &mut Vec<u8>) -> Result<(), NoMemory>
    ensures { OnOk result (out.new.items ≡ out.old.items ++ encode_utf8_all (c ∷ [])) }
{
    let mut text = String::new(alloc);
    text.push(c)?;
    out.extend_from_slice(text.as_bytes())?;
    Ok(())
}

/// The error of a term that is no character.
fn no_character(term: &FlatTerm) -> Result<Fault, NoMemory>
    ensures { IfOk result (λ fault. error_term (error_term_of fault) (codes "put_char") 1 ≡ no_character_ball term.now) }
{
    match term.top() {
        Cell::Var(_) => Ok(Fault::Instantiation),
        _ => Ok(Fault::WrongType(TypeName::Character, term.copy()?)),
    }
}

/// Puts the line that ends a query after other bytes.
fn push_end_line(
    alloc: Global,
    ball: &Option<FlatTerm>,
    ops: &Ops,
    out: &mut Vec<u8>,
) -> Result<(), NoMemory>
    ensures { OnOk result (out.new.items ≡ out.old.items ++ end_line ops.now ball.now) }
{
    match ball {
        Some(ball) => ball_line(alloc, out, ball, ops),
        None => {
            out.extend_from_slice(b"no\n")?;
            Ok(())
        }
    }
}
