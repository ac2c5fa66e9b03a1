//! Operators after an operand.
ghost use Rattle.std.specs.Prelude.{◌≡◌, ℕ, List, IfOk};
ghost use Rattle.std.specs.Str.{chars};
ghost use Rattle.au_model.specs.Syntax.PostOperators.{post_operator_fits, lexeme_post_operator, named_post_operator};
ghost use Rattle.op_table.specs.OperatorView.{operator_meant};
ghost use Rattle.term_reader.specs.LexemeView.{post_operator_meant, post_operator_name, lexeme_meant};

use crate::lexeme::Lexeme;
use au_term::{Atom, NoMemory};
use op_table::{OpKind, Operator, Ops};
use std::alloc::Global;

/// What a token after an operand joins it to.
#[derive(Clone, Copy)]
pub(crate) enum PostOperator {
    Infix(Operator),
    Postfix(Operator),
    Nothing,
}

/// The operator of a name after an operand.
pub(crate) fn named_post_operator(ops: &Ops, name: &str) -> PostOperator
    ensures { post_operator_meant (chars name.now) result ≡ named_post_operator ops.now (chars name.now) }
{
    if let Some(o) = ops.infix(name) {
        return PostOperator::Infix(o);
    }
    match ops.postfix(name) {
        Some(o) => PostOperator::Postfix(o),
        None => PostOperator::Nothing,
    }
}

/// The operator that a token is after an operand.
pub(crate) fn post_operator_of(ops: &Ops, lexeme: &Lexeme) -> PostOperator
    ensures { post_operator_meant (post_operator_name (lexeme_meant lexeme.now)) result ≡ lexeme_post_operator ops.now (lexeme_meant lexeme.now) }
{
    match lexeme {
        Lexeme::Name(name) | Lexeme::QuotedName(name) => named_post_operator(ops, name.text()),
        Lexeme::Comma => PostOperator::Infix(Operator {
            priority: 1000,
            kind: OpKind::Xfy,
        }),
        _ => PostOperator::Nothing,
    }
}

/// The name of such an operator.
pub(crate) fn post_operator_name(alloc: Global, lexeme: Lexeme) -> Result<Atom, NoMemory>
    ensures { IfOk result (λ a. a ≡ post_operator_name (lexeme_meant lexeme)) }
{
    match lexeme {
        Lexeme::Name(name) | Lexeme::QuotedName(name) => Ok(name),
        _ => Atom::ascii(alloc, ","),
    }
}

impl PostOperator {
    /// Whether it goes on after an operand of this priority, within this bound.
    pub(crate) fn fits(self, bound: u16, priority: u16) -> bool
        ensures { (n : List ℕ) → result ≡ post_operator_fits bound priority (post_operator_meant n self) }
    {
        match self {
            PostOperator::Infix(o) | PostOperator::Postfix(o) => {
                o.priority <= bound && priority <= o.left_bound()
            }
            PostOperator::Nothing => false,
        }
    }
}
