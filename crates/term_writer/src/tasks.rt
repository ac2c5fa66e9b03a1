//! What is still to be written of a term. Nothing recurses on a term's depth.
ghost use Rattle.std.specs.Prelude.{◌≡◌, ◌+◌, ◌<◌, ◌≤◌, ℕ, List, ◌∷◌, OnOk};
ghost use Rattle.au_term.specs.Term.{more, count, take_terms, arguments, argument_count};
ghost use Rattle.au_term.specs.PrefixOrder.{top_of, IsValidCell};
ghost use Rattle.au_term.specs.declared.cell.Cell.TheVariants.{Functor};
ghost use Rattle.au_model.specs.Syntax.PostOperators.{right_bound};
ghost use Rattle.au_model.specs.Syntax.Tokens.{Bar as BarMark};
ghost use Rattle.au_model.specs.Writing.OperatorForms.{ListForm, BracedForm, InfixForm, PrefixForm, PostfixForm, FunctionalForm, unary_form, binary_form, is_above, is_enclosed, is_enclosed_left};
ghost use Rattle.au_model.specs.Writing.Pieces.{Put};
ghost use Rattle.au_model.specs.Writing.WrittenTerms.{enclosed, pieces, cell_pieces, further_pieces, tail_pieces};
ghost use Rattle.op_table.specs.OperatorView.{operator_meant};
ghost use Rattle.term_writer.specs.WritingTasks.{terms_at, term_weight, terms_weight};
ghost use Rattle.term_writer.specs.WritingSources.{PushesTail, PushesFurther, PushesItem, notation_of_source, term_of_source, source_subterm, IsSourcePlace, PushesTasks, OpensCompound, PushesSubterm, PushesCompound, PushesListRest};

use crate::forms::{Form, Notation};
use crate::names::{is_cell_name, is_nil};
use crate::text::Mark;
use au_term::{Atom, Cell, FlatTerm, NoMemory};
use op_table::{ARGUMENT_PRIORITY, Operator};

/// What is still to be written, by places of the term's cells.
#[derive(Clone, Copy)]
pub(crate) enum Task<'a> {
    /// The subterm at this place.
    Term(usize),
    /// So many arguments from this place on, after the first, and the bracket.
    Further(usize, u32),
    /// The rest of a list at this place, after an item.
    Tail(usize),
    Mark(Mark),
    Name(&'a Atom),
    Prefix(&'a Atom),
    Infix(&'a Atom, Operator),
    Postfix(&'a Atom),
}

/// A term that is written, and the operators that are written as such.
#[derive(Clone, Copy)]
pub(crate) struct Source<'a> {
    pub(crate) term: &'a FlatTerm,
    pub(crate) notation: Notation<'a>,
}

impl<'a> Source<'a> {
    /// The first cell of the subterm at a place.
    pub(crate) fn cell(self, at: usize) -> &'a Cell
        requires { IsSourcePlace self at }
        ensures top { result.now ≡ top_of (source_subterm self.entry at) }
        ensures sound { IsValidCell result.now }
    {
        &self.term.subterm(at)[0]
    }

    /// Where the term after the subterm at a place begins.
    fn after(self, at: usize) -> usize
        requires { IsSourcePlace self at }
        ensures { terms_at (term_of_source self.entry) at ≡ more (source_subterm self.entry at) (terms_at (term_of_source self.entry) result) }
    {
        self.term.term_end(at)
    }

    /// Where the arguments of the compound at a place begin.
    fn first_argument(self, at: usize) -> usize
        requires place { IsSourcePlace self at }
        requires some { 0 < argument_count (source_subterm self at) }
        ensures place { IsSourcePlace self.entry result }
        ensures arguments { take_terms (argument_count (source_subterm self.entry at)) (terms_at (term_of_source self.entry) result) ≡ arguments (source_subterm self.entry at) }
        ensures enough { argument_count (source_subterm self.entry at) ≤ count (terms_at (term_of_source self.entry) result) }
    {
        let length = self.term.cells().len();
        prove!(at < length);
        at + 1
    }

    /// The subterm at a place, in brackets or not.
    pub(crate) fn part(
        self,
        at: usize,
        is_enclosed: bool,
        due: &mut Vec<Task<'a>>,
    ) -> Result<(), NoMemory>
        requires { IsSourcePlace self at }
        ensures { OnOk result (PushesSubterm self.entry at is_enclosed due.old.items due.new.items) }
    {
        if is_enclosed {
            due.push(Task::Mark(Mark::Close))?;
            due.push(Task::Term(at))?;
            due.push(Task::Mark(Mark::Open))?;
        } else {
            due.push(Task::Term(at))?;
        }
        Ok(())
    }

    /// An argument or item.
    fn argument(self, at: usize, due: &mut Vec<Task<'a>>) -> Result<(), NoMemory>
        requires { IsSourcePlace self at }
        ensures { OnOk result (PushesSubterm self.entry at (is_above (notation_of_source self.entry) 999 (source_subterm self.entry at)) due.old.items due.new.items) }
    {
        self.part(
            at,
            self.notation.is_above(ARGUMENT_PRIORITY, self.cell(at)),
            due,
        )
    }

    /// The last operand of an operator.
    fn last_operand(
        self,
        at: usize,
        operator: Operator,
        due: &mut Vec<Task<'a>>,
    ) -> Result<(), NoMemory>
        requires { IsSourcePlace self at }
        ensures { OnOk result (PushesSubterm self.entry at (is_enclosed (notation_of_source self.entry) (right_bound (operator_meant operator)) (source_subterm self.entry at)) due.old.items due.new.items) }
    {
        let is_enclosed = self
            .notation
            .is_enclosed(operator.right_bound(), self.cell(at));
        self.part(at, is_enclosed, due)
    }

    /// The left operand of an operator.
    fn left_operand(
        self,
        at: usize,
        operator: Operator,
        due: &mut Vec<Task<'a>>,
    ) -> Result<(), NoMemory>
        requires { IsSourcePlace self at }
        ensures { OnOk result (PushesSubterm self.entry at (is_enclosed_left (notation_of_source self.entry) (operator_meant operator) (source_subterm self.entry at)) due.old.items due.new.items) }
    {
        let is_enclosed = self.notation.is_enclosed_left(operator, self.cell(at));
        self.part(at, is_enclosed, due)
    }

    /// A list, whose first cell is at a place.
    fn list(self, at: usize, due: &mut Vec<Task<'a>>) -> Result<(), NoMemory>
        requires place { IsSourcePlace self at }
        requires two { argument_count (source_subterm self at) ≡ 2 }
        ensures { OnOk result ((name : List ℕ) → OpensCompound self.entry at ListForm name due.old.items due.new.items) }
    {
        due.push(Task::Mark(Mark::CloseList))?;
        due.push(Task::Tail(self.term.arg_start(at, 1)))?;
        self.argument(self.term.arg_start(at, 0), due)?;
        due.push(Task::Mark(Mark::OpenList))?;
        Ok(())
    }

    /// A term in braces.
    fn braces(self, at: usize, due: &mut Vec<Task<'a>>) -> Result<(), NoMemory>
        requires place { IsSourcePlace self at }
        requires one { argument_count (source_subterm self at) ≡ 1 }
        ensures { OnOk result ((name : List ℕ) → OpensCompound self.entry at BracedForm name due.old.items due.new.items) }
    {
        due.push(Task::Mark(Mark::CloseCurly))?;
        due.push(Task::Term(self.term.arg_start(at, 0)))?;
        due.push(Task::Mark(Mark::OpenCurly))?;
        Ok(())
    }

    /// An infix operator between its operands.
    fn infix(
        self,
        at: usize,
        name: &'a Atom,
        operator: Operator,
        due: &mut Vec<Task<'a>>,
    ) -> Result<(), NoMemory>
        requires place { IsSourcePlace self at }
        requires two { argument_count (source_subterm self at) ≡ 2 }
        ensures { OnOk result (OpensCompound self.entry at (InfixForm (operator_meant operator)) name.now due.old.items due.new.items) }
    {
        self.last_operand(self.term.arg_start(at, 1), operator, due)?;
        due.push(Task::Infix(name, operator))?;
        self.left_operand(self.term.arg_start(at, 0), operator, due)
    }

    /// A prefix operator before its operand.
    fn prefix(
        self,
        at: usize,
        name: &'a Atom,
        operator: Operator,
        due: &mut Vec<Task<'a>>,
    ) -> Result<(), NoMemory>
        requires place { IsSourcePlace self at }
        requires one { argument_count (source_subterm self at) ≡ 1 }
        ensures { OnOk result (OpensCompound self.entry at (PrefixForm (operator_meant operator)) name.now due.old.items due.new.items) }
    {
        self.last_operand(self.term.arg_start(at, 0), operator, due)?;
        due.push(Task::Prefix(name))?;
        Ok(())
    }

    /// A postfix operator after its operand.
    fn postfix(
        self,
        at: usize,
        name: &'a Atom,
        operator: Operator,
        due: &mut Vec<Task<'a>>,
    ) -> Result<(), NoMemory>
        requires place { IsSourcePlace self at }
        requires one { argument_count (source_subterm self at) ≡ 1 }
        ensures { OnOk result (OpensCompound self.entry at (PostfixForm (operator_meant operator)) name.now due.old.items due.new.items) }
    {
        due.push(Task::Postfix(name))?;
        self.left_operand(self.term.arg_start(at, 0), operator, due)
    }

    /// A name and its arguments in brackets.
    fn functional(
        self,
        at: usize,
        name: &'a Atom,
        arity: u32,
        due: &mut Vec<Task<'a>>,
    ) -> Result<(), NoMemory>
        requires place { IsSourcePlace self at }
        requires some { 0 < arity }
        requires count { argument_count (source_subterm self at) ≡ arity }
        ensures { OnOk result (OpensCompound self.entry at FunctionalForm name.now due.old.items due.new.items) }
    {
        let first = self.first_argument(at);
        due.push(Task::Further(self.after(first), arity - 1))?;
        self.argument(first, due)?;
        due.push(Task::Mark(Mark::Open))?;
        due.push(Task::Name(name))?;
        Ok(())
    }

    /// A compound with one argument.
    fn unary(self, at: usize, name: &'a Atom, due: &mut Vec<Task<'a>>) -> Result<(), NoMemory>
        requires place { IsSourcePlace self at }
        requires one { argument_count (source_subterm self at) ≡ 1 }
        ensures { OnOk result (OpensCompound self.entry at (unary_form (notation_of_source self.entry) name.now) name.now due.old.items due.new.items) }
    {
        match self.notation.unary_form(name.text()) {
            Form::Braces => self.braces(at, due),
            Form::Prefix(operator) => self.prefix(at, name, operator, due),
            Form::Postfix(operator) => self.postfix(at, name, operator, due),
            _ => self.functional(at, name, 1, due),
        }
    }

    /// A compound with two arguments.
    fn binary(self, at: usize, name: &'a Atom, due: &mut Vec<Task<'a>>) -> Result<(), NoMemory>
        requires place { IsSourcePlace self at }
        requires two { argument_count (source_subterm self at) ≡ 2 }
        ensures { OnOk result (OpensCompound self.entry at (binary_form (notation_of_source self.entry) name.now) name.now due.old.items due.new.items) }
    {
        match self.notation.binary_form(name.text()) {
            Form::List => self.list(at, due),
            Form::Infix(operator) => self.infix(at, name, operator, due),
            _ => self.functional(at, name, 2, due),
        }
    }

    /// A compound with this name and so many arguments.
    pub(crate) fn compound(
        self,
        at: usize,
        name: &'a Atom,
        arity: u32,
        due: &mut Vec<Task<'a>>,
    ) -> Result<(), NoMemory>
        requires place { IsSourcePlace self at }
        requires some { 0 < arity }
        requires top { top_of (source_subterm self at) ≡ Functor name.now arity }
        ensures { OnOk result (PushesCompound self.entry at due.old.items due.new.items) }
    {
        match arity {
            1 => self.unary(at, name, due),
            2 => self.binary(at, name, due),
            _ => self.functional(at, name, arity, due),
        }
    }

    /// So many arguments from a place on, after the first, and the bracket.
    pub(crate) fn further(
        self,
        at: usize,
        left: u32,
        due: &mut Vec<Task<'a>>,
    ) -> Result<(), NoMemory>
        requires { left ≤ count (terms_at (term_of_source self) at) }
        ensures { OnOk result (PushesFurther self.entry at left due.old.items due.new.items) }
    {
        if left == 0 {
            due.push(Task::Mark(Mark::Close))?;
        } else {
            due.push(Task::Further(self.after(at), left - 1))?;
            self.argument(at, due)?;
            due.push(Task::Mark(Mark::Comma))?;
        }
        Ok(())
    }

    /// The rest of a list, after an item.
    pub(crate) fn tail(self, at: usize, due: &mut Vec<Task<'a>>) -> Result<(), NoMemory>
        requires { IsSourcePlace self at }
        ensures { OnOk result (PushesListRest self.entry at due.old.items due.new.items) }
    {
        match self.cell(at) {
            Cell::Atom(name) if is_nil(name.text()) => Ok(()),
            Cell::Functor(name, 2) if is_cell_name(name.text()) => self.next_item(at, due),
            _ => self.rest(at, due),
        }
    }

    /// A tail that is a list's cell.
    fn next_item(self, at: usize, due: &mut Vec<Task<'a>>) -> Result<(), NoMemory>
        requires place { IsSourcePlace self at }
        requires two { argument_count (source_subterm self at) ≡ 2 }
        ensures { OnOk result (PushesItem self.entry at due.old.items due.new.items) }
    {
        due.push(Task::Tail(self.term.arg_start(at, 1)))?;
        self.argument(self.term.arg_start(at, 0), due)?;
        due.push(Task::Mark(Mark::Comma))?;
        Ok(())
    }

    /// A tail that is no list.
    fn rest(self, at: usize, due: &mut Vec<Task<'a>>) -> Result<(), NoMemory>
        requires { IsSourcePlace self at }
        ensures { OnOk result (PushesTail self.entry at due.old.items due.new.items) }
    {
        self.argument(at, due)?;
        due.push(Task::Mark(Mark::Bar))?;
        Ok(())
    }
}
