//! The form in which a compound is written, and which operands are in brackets.
ghost use Rattle.std.specs.Prelude.{◌≡◌, option_map};
ghost use Rattle.std.specs.Str.{chars};
ghost use Rattle.au_model.specs.Syntax.Operators.{prefix_of, infix_of, postfix_of};
ghost use Rattle.au_model.specs.Syntax.PostOperators.{left_bound, right_bound, takes_equal_left, takes_equal_right};
ghost use Rattle.au_model.specs.Writing.OperatorForms.{unary_form, binary_form, form_priority, takes_equal_last, is_operator_name};
ghost use Rattle.op_table.specs.OperatorView.{operator_meant, kind_meant};
ghost use Rattle.term_writer.specs.NotationView.{notation_meant, form_meant, compound_form_of_cell, cell_is_operator, cell_above, cell_enclosed, cell_enclosed_left};

use crate::names::{is_braces, is_cell_name};
use au_term::Cell;
use op_table::{OpKind, Operator, Ops};

/// The operators that are written as such, and braces with them; none in canonical text.
#[derive(Clone, Copy)]
pub(crate) struct Notation<'a> {
    pub(crate) operators: Option<&'a Ops>,
}

/// The form of a compound.
#[derive(Clone, Copy)]
pub(crate) enum Form {
    List,
    Braces,
    Infix(Operator),
    Prefix(Operator),
    Postfix(Operator),
    Functional,
}

impl<'a> Notation<'a> {
    fn prefix(self, name: &str) -> Option<Operator>
        ensures { option_map operator_meant result ≡ prefix_of (notation_meant self.entry).operators (chars name.now) }
    {
        self.operators?.prefix(name)
    }

    fn infix(self, name: &str) -> Option<Operator>
        ensures { option_map operator_meant result ≡ infix_of (notation_meant self.entry).operators (chars name.now) }
    {
        self.operators?.infix(name)
    }

    fn postfix(self, name: &str) -> Option<Operator>
        ensures { option_map operator_meant result ≡ postfix_of (notation_meant self.entry).operators (chars name.now) }
    {
        self.operators?.postfix(name)
    }

    /// The form of a compound with this name and one argument.
    pub(crate) fn unary_form(self, name: &str) -> Form
        ensures { form_meant result ≡ unary_form (notation_meant self.entry) (chars name.now) }
    {
        if self.operators.is_some() && is_braces(name) {
            return Form::Braces;
        }
        match self.prefix(name) {
            Some(operator) => Form::Prefix(operator),
            None => match self.postfix(name) {
                Some(operator) => Form::Postfix(operator),
                None => Form::Functional,
            },
        }
    }

    /// The form of a compound with this name and two arguments.
    pub(crate) fn binary_form(self, name: &str) -> Form
        ensures { form_meant result ≡ binary_form (notation_meant self.entry) (chars name.now) }
    {
        if is_cell_name(name) {
            return Form::List;
        }
        match self.infix(name) {
            Some(operator) => Form::Infix(operator),
            None => Form::Functional,
        }
    }

    /// The form of the term that begins with this cell.
    pub(crate) fn form(self, cell: &Cell) -> Form
        ensures { form_meant result ≡ compound_form_of_cell (notation_meant self.entry) cell.now }
    {
        match cell {
            Cell::Functor(name, 1) => self.unary_form(name.text()),
            Cell::Functor(name, 2) => self.binary_form(name.text()),
            _ => Form::Functional,
        }
    }

    /// Whether a name is an operator.
    fn is_operator(self, name: &str) -> bool
        ensures { result ≡ is_operator_name (notation_meant self.entry).operators (chars name.now) }
    {
        self.prefix(name).is_some() || self.infix(name).is_some() || self.postfix(name).is_some()
    }

    /// Whether the term that begins with this cell is an atom that is an operator.
    fn is_operator_atom(self, cell: &Cell) -> bool
        ensures { result ≡ cell_is_operator (notation_meant self.entry) cell.now }
    {
        match cell {
            Cell::Atom(name) => self.is_operator(name.text()),
            _ => false,
        }
    }

    /// Whether an argument or item that begins with this cell is in brackets.
    pub(crate) fn is_above(self, bound: u16, cell: &Cell) -> bool
        ensures { result ≡ cell_above (notation_meant self.entry) bound cell.now }
    {
        bound < self.form(cell).priority()
    }

    /// Whether an operand that begins with this cell is in brackets.
    pub(crate) fn is_enclosed(self, bound: u16, cell: &Cell) -> bool
        ensures { result ≡ cell_enclosed (notation_meant self.entry) bound cell.now }
    {
        self.is_operator_atom(cell) || self.is_above(bound, cell)
    }

    /// Whether a left operand of this operator that begins with this cell is in brackets.
    pub(crate) fn is_enclosed_left(self, operator: Operator, cell: &Cell) -> bool
        ensures { result ≡ cell_enclosed_left (notation_meant self.entry) (operator_meant operator) cell.now }
    {
        if self.is_enclosed(operator.left_bound(), cell) {
            return true;
        }
        let form = self.form(cell);
        operator.kind.takes_equal_left()
            && form.takes_equal_last()
            && form.priority() == operator.priority
    }
}

impl Form {
    fn priority(self) -> u16
        ensures { result ≡ form_priority (form_meant self) }
    {
        match self {
            Form::Infix(operator) | Form::Prefix(operator) | Form::Postfix(operator) => {
                operator.priority
            }
            _ => 0,
        }
    }

    /// Whether it ends with an operand that may have the operator's own priority.
    fn takes_equal_last(self) -> bool
        ensures { result ≡ takes_equal_last (form_meant self) }
    {
        match self {
            Form::Infix(operator) | Form::Prefix(operator) => operator.kind.takes_equal_right(),
            _ => false,
        }
    }
}
