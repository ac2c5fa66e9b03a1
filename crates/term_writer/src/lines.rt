//! The lines of answers and of uncaught balls.
ghost use Rattle.std.specs.Prelude.{◌≡◌, ◌++◌, OnOk, OnErr};
ghost use Rattle.au_model.specs.Writing.Lines.{answer_line, shown_binding, error_line};
ghost use Rattle.au_model.specs.Writing.WrittenTerms.{written_as_value};
ghost use Rattle.term_writer.specs.AnswerParts.{named_term, named_terms, separator, line_end};

use crate::forms::Notation;
use crate::tasks::Source;
use crate::text::Text;
use crate::write::write_into;
use au_model::{Style, VarName};
use au_term::{FlatTerm, NoMemory};
use op_table::Ops;
use std::alloc::Global;

/// Puts the line of an answer after the bytes of `out`: each name with the value beside it, or `true` where there is
/// none. A value is as the right operand of an infix operator of priority 700, as `writeq` writes it. After an error
/// `out` is as before.
pub fn answer_line(
    alloc: Global,
    out: &mut Vec<u8>,
    names: &[VarName],
    values: &[FlatTerm],
    ops: &Ops,
) -> Result<(), NoMemory>
    ensures ok { OnOk result (out.new.items ≡ out.old.items ++ answer_line ops.now (named_terms names.now values.now)) }
    ensures err { OnErr result (out.new.items ≡ out.old.items) }
{
    let mut line = Vec::new(alloc);
    push_bindings(alloc, names, values, ops, &mut line)?;
    out.extend_from_slice(&line)?;
    Ok(())
}

/// Puts the line that an uncaught ball ends a query with after the bytes of `out`. After an error `out` is as before.
pub fn ball_line(
    alloc: Global,
    out: &mut Vec<u8>,
    ball: &FlatTerm,
    ops: &Ops,
) -> Result<(), NoMemory>
    ensures ok { OnOk result (out.new.items ≡ out.old.items ++ error_line ops.now ball.now) }
    ensures err { OnErr result (out.new.items ≡ out.old.items) }
{
    let mut line = Vec::new(alloc);
    line.extend_from_slice(b"error: ")?;
    write_into(alloc, &mut line, ball, ops, Style::Quoted)?;
    line.push(b'\n')?;
    out.extend_from_slice(&line)?;
    Ok(())
}

/// Puts an answer's line after the bytes of `line`.
fn push_bindings(
    alloc: Global,
    names: &[VarName],
    values: &[FlatTerm],
    ops: &Ops,
    line: &mut Vec<u8>,
) -> Result<(), NoMemory>
    ensures { OnOk result (line.new.items ≡ line.old.items ++ answer_line ops.now (named_terms names.now values.now)) }
{
    let count = names.len().min(values.len());
    for i in 0..count {
        push_separator(i, line)?;
        push_binding(alloc, &names[i], &values[i], ops, line)?;
    }
    end_line(count, line)
}

/// What is in front of a binding, by how many are before it.
fn push_separator(before: usize, line: &mut Vec<u8>) -> Result<(), NoMemory>
    ensures { OnOk result (line.new.items ≡ line.old.items ++ separator before) }
{
    if before > 0 {
        line.extend_from_slice(b", ")?;
    }
    Ok(())
}

/// The end of an answer's line, by how many bindings it has.
fn end_line(bindings: usize, line: &mut Vec<u8>) -> Result<(), NoMemory>
    ensures { OnOk result (line.new.items ≡ line.old.items ++ line_end bindings) }
{
    if bindings == 0 {
        line.extend_from_slice(b"true")?;
    }
    line.push(b'\n')?;
    Ok(())
}

/// A name and its value.
fn push_binding(
    alloc: Global,
    name: &VarName,
    value: &FlatTerm,
    ops: &Ops,
    line: &mut Vec<u8>,
) -> Result<(), NoMemory>
    ensures { OnOk result (line.new.items ≡ line.old.items ++ shown_binding ops.now (named_term name.now value.now)) }
{
    line.extend_from_slice(name.text.as_str().as_bytes())?;
    line.extend_from_slice(b" = ")?;
    push_value(alloc, value, ops, line)
}

/// A term as the right operand of an infix operator whose right bound is 699.
fn push_value(
    alloc: Global,
    value: &FlatTerm,
    ops: &Ops,
    line: &mut Vec<u8>,
) -> Result<(), NoMemory>
    ensures { OnOk result (line.new.items ≡ line.old.items ++ written_as_value ops.now value.now) }
{
    let mut text = Text::new(alloc, Style::Quoted);
    let notation = Notation {
        operators: Some(ops),
    };
    let is_enclosed = notation.is_enclosed(699, value.top());
    let source = Source {
        term: value,
        notation,
    };
    source.write(alloc, is_enclosed, &mut text)?;
    line.extend_from_slice(&text.bytes)?;
    Ok(())
}
