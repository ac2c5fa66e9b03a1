//! Whole terms written.
ghost use Rattle.std.specs.Prelude.{◌≡◌, ◌++◌, [], OnOk, OnErr};
ghost use Rattle.au_model.specs.Writing.WrittenTerms.{enclosed, pieces, notation_of, written_term};
ghost use Rattle.term_writer.specs.NotationView.{notation_meant};
ghost use Rattle.term_writer.specs.WritingTasks.{IsTaskPlaced};
ghost use Rattle.term_writer.specs.TextInProgress.{followed_by};
ghost use Rattle.term_writer.specs.WritingSources.{notation_of_source, term_of_source, IsSourcePlace, FinishesTask};
ghost use Rattle.term_writer.specs.declared.tasks.Task.TheVariants.{Term as TermTask};

use crate::forms::Notation;
use crate::tasks::{Source, Task};
use crate::text::Text;
use au_model::Style;
use au_term::{Cell, FlatTerm, NoMemory};
use op_table::Ops;
use std::alloc::Global;

/// Puts the text of a term after the bytes of `out` (ISO/IEC 13211-1, 7.10.5), under these operators. After an error
/// `out` is as before. It takes time linear in the text.
pub fn write_into(
    alloc: Global,
    out: &mut Vec<u8>,
    term: &FlatTerm,
    ops: &Ops,
    style: Style,
) -> Result<(), NoMemory>
    ensures ok { OnOk result (out.new.items ≡ out.old.items ++ written_term style ops.now term.now) }
    ensures err { OnErr result (out.new.items ≡ out.old.items) }
{
    let mut text = Text::new(alloc, style);
    let source = Source {
        term,
        notation: notation(style, ops),
    };
    source.write(alloc, false, &mut text)?;
    out.extend_from_slice(&text.bytes)?;
    Ok(())
}

/// The operators that are written as such in a style.
fn notation(style: Style, ops: &Ops) -> Notation<'_>
    ensures { notation_meant result ≡ notation_of style ops.now }
{
    Notation {
        operators: match style {
            Style::Canonical => None,
            Style::Plain | Style::Quoted => Some(ops),
        },
    }
}

impl<'a> Source<'a> {
    /// Puts the term after the text, in brackets or not.
    pub(crate) fn write(
        self,
        alloc: Global,
        is_enclosed: bool,
        text: &mut Text,
    ) -> Result<(), NoMemory>
        ensures { OnOk result (followed_by text.new [] ≡ followed_by text.old (enclosed is_enclosed (pieces (notation_of_source self.entry) (term_of_source self.entry)) [])) }
    {
        let mut due = Vec::new(alloc);
        self.part(0, is_enclosed, &mut due)?;
        while let Some(task) = due.pop() {
            self.take(task, &mut due, text)?;
        }
        Ok(())
    }

    /// Does a task that was taken from those that are due.
    fn take(self, task: Task<'a>, due: &mut Vec<Task<'a>>, text: &mut Text) -> Result<(), NoMemory>
        requires { IsTaskPlaced (term_of_source self) task }
        ensures { OnOk result (FinishesTask self.entry task.entry due.old.items due.new.items text.old text.new) }
    {
        match task {
            Task::Term(at) => self.take_term(at, due, text),
            Task::Further(at, left) => self.further(at, left, due),
            Task::Tail(at) => self.tail(at, due),
            Task::Mark(mark) => text.mark(mark),
            Task::Name(name) => text.name(name.text()),
            Task::Prefix(name) => text.prefix(name.text()),
            Task::Infix(name, operator) => text.infix(operator, name.text()),
            Task::Postfix(name) => text.postfix(name.text()),
        }
    }

    /// The subterm at a place: a leaf is written, a compound gives further tasks.
    fn take_term(self, at: usize, due: &mut Vec<Task<'a>>, text: &mut Text) -> Result<(), NoMemory>
        requires { IsSourcePlace self at }
        ensures { OnOk result (FinishesTask self.entry (TermTask at) due.old.items due.new.items text.old text.new) }
    {
        match self.cell(at) {
            Cell::Var(number) => text.variable(*number),
            Cell::Int(value) => text.integer(*value),
            Cell::Atom(name) => text.name(name.text()),
            Cell::Functor(name, arity) => self.compound(at, name, *arity, due),
        }
    }
}
